//! The tools that make files of others, or of nothing.

ghost use Rattle.std.specs.Prelude.{◌≡◌, IfOk, map};
ghost use Rattle.snd_deinterleave.specs.Among.{ChangesAmong};
ghost use Rattle.snd_output.specs.Ends.{CountsStop};
ghost use Rattle.snd_tools.specs.Done.{said_by};
ghost use Rattle.snd_tools.specs.Shelves.{IsAllIn};
ghost use Rattle.snd_words.specs.Asked.{IsWork};
ghost use Rattle.snd_words.specs.Request.{work_of};
ghost use Rattle.snd_app.specs.Printed.{outcome_said};
ghost use Rattle.snd_app.specs.Run.{DescribingFaultRises, DoneAtStream, ToolsAs};
ghost use Rattle.snd_app.specs.Tools.{AsksForWork, CarriesOut, RepliesOf, RepliesTo, after_work, made_by, outcome_by, summary_text};

use crate::info::refuse;
use crate::put::{FAULT, NO_MEMORY, put_text};
use itoa::Buffer;
use snd_concat::concat;
use snd_convert::convert;
use snd_deinterleave::deinterleave;
use snd_disk::{Shelf, Sink};
use snd_export::export;
use snd_generate::{Summary, generate};
use snd_import::import;
use snd_interleave::interleave;
use snd_lines::{push_line, push_number_line};
use snd_metadata::set_metadata;
use snd_output::Stop;
use snd_rack::Stage;
use snd_salvage::{Salvaging, salvage};
use snd_tools::Answer;
use snd_words::Tool;
use std::alloc::{AllocError, Global};

/// What a tool prints.
#[derive(Drop)]
pub(crate) enum Reply {
    /// What it has done, on `out`.
    Done(Vec<u8>),
    /// Which file it refused, and why, on `err`.
    Refused(Vec<u8>),
}

/// What is printed of what a tool answers.
fn answer_text(alloc: Global, answer: &Answer<'_>) -> Result<Reply, AllocError>
    ensures { IfOk result (λ reply. outcome_by reply ≡ outcome_said (said_by answer.now)) }
{
    match answer {
        Answer::Made(frames) => {
            let mut text = Vec::new(alloc);
            push_number_line(&mut text, b"ok", *frames)?;
            Ok(Reply::Done(text))
        }
        Answer::Refused(name, why) => {
            let text = refuse(alloc, name, *why)?;
            Ok(Reply::Refused(text))
        }
    }
}

/// What is printed of what came of a tool.
fn reply_to(alloc: Global, answer: Result<Answer<'_>, Stop>) -> Result<Reply, Stop>
    ensures { RepliesTo answer.entry result }
{
    match answer {
        Ok(answer) => match answer_text(alloc, &answer) {
            Ok(reply) => Ok(reply),
            Err(_) => Err(Stop::Memory),
        },
        Err(stop) => Err(stop),
    }
}

/// The lines on what a file of frames that a seed gives holds.
fn summary_text(alloc: Global, summary: &Summary) -> Result<Vec<u8>, AllocError>
    ensures { IfOk result (λ text. text.items ≡ summary_text summary.now) }
{
    let mut text = Vec::new(alloc);
    push_number_line(&mut text, b"frames", summary.frames)?;
    push_line(
        &mut text,
        b"peak",
        Buffer::new().format(summary.peak).as_bytes(),
    )?;
    push_line(
        &mut text,
        b"energy",
        Buffer::new().format(summary.energy).as_bytes(),
    )?;
    Ok(text)
}

/// What is printed of what came of `gen`.
fn reply_of(alloc: Global, summary: Result<Summary, Stop>) -> Result<Reply, Stop>
    ensures { RepliesOf summary result }
{
    match summary {
        Ok(summary) => match summary_text(alloc, &summary) {
            Ok(text) => Ok(Reply::Done(text)),
            Err(_) => Err(Stop::Memory),
        },
        Err(stop) => Err(stop),
    }
}

/// Carries out a tool's work, where it has a rack with some of the stages.
#[tactic(auto, using(crate::proofs::Left::one_among))]
fn carry_out<S: Shelf>(
    alloc: Global,
    tool: &Tool<'_>,
    shelf: &mut S,
    stages: Vec<Box<dyn Stage>>,
) -> Result<Reply, Stop>
    requires all_in { IsAllIn (S.state shelf.old) }
    requires good { IsWork (work_of tool.now) }
    ensures done { CarriesOut S.state (work_of tool.now) (map (λ b. (stage b).kind) stages.items) shelf.old shelf.new result }
    ensures changes { ChangesAmong S.Shelf (made_by (work_of tool.now)) shelf.old shelf.new }
    ensures faults { CountsStop (S.state shelf.old).faults (S.state shelf.new).faults result }
    ensures asked { AsksForWork S.state (work_of tool.now) shelf.old shelf.new }
{
    match tool {
        Tool::Convert(it) => reply_to(alloc, convert(alloc, it, shelf, stages)),
        Tool::Concat(it) => reply_to(alloc, concat(alloc, it, shelf)),
        Tool::Interleave(it) => reply_to(alloc, interleave(alloc, it, shelf)),
        Tool::Generate(it) => reply_of(alloc, generate(alloc, it, shelf)),
        Tool::SetMetadata(it) => reply_to(alloc, set_metadata(alloc, it, shelf)),
        Tool::Import(it) => reply_to(alloc, import(alloc, it, shelf)),
        Tool::Export(it) => reply_to(alloc, export(alloc, it, shelf)),
        Tool::Salvage(it) => {
            let salvaging = Salvaging {
                input: it.input,
                output: it.output,
            };
            reply_to(alloc, salvage(alloc, &salvaging, shelf))
        }
        Tool::Deinterleave(it) => {
            reply_to(alloc, deinterleave(alloc, it.input, &it.outputs, shelf))
        }
    }
}

/// Carries out a tool's work, and says on `out` what was done, or on `err` which file was refused and why.
pub(crate) fn run_tool<S: Shelf, O: Sink, E: Sink>(
    alloc: Global,
    tool: &Tool<'_>,
    shelf: &mut S,
    out: &mut O,
    err: &mut E,
    stages: Vec<Box<dyn Stage>>,
) -> u8
    requires all_in { IsAllIn (S.state shelf.old) }
    requires good { IsWork (work_of tool.now) }
    ensures outcome { ToolsAs S.Shelf O.Sink E.Sink (work_of tool.now) (map (λ b. (stage b).kind) stages.items)
        shelf.old out.old err.old shelf.new out.new err.new result }
    ensures fault { result ≡ 3 →
        DescribingFaultRises S.Shelf O.Sink E.Sink shelf.old out.old err.old shelf.new out.new err.new }
    ensures done { DoneAtStream S.state (after_work (work_of tool.now) (map (λ b. (stage b).kind) stages.items)) shelf.old shelf.new result }
    ensures changes { ChangesAmong S.Shelf (made_by (work_of tool.now)) shelf.old shelf.new }
    ensures asked { AsksForWork S.state (work_of tool.now) shelf.old shelf.new }
{
    match carry_out(alloc, tool, shelf, stages) {
        Ok(Reply::Done(text)) => put_text(out, &text, 0),
        Ok(Reply::Refused(text)) => put_text(err, &text, 1),
        Err(Stop::Fault) => FAULT,
        Err(Stop::Memory) => NO_MEMORY,
        Err(Stop::Changed) => NO_MEMORY,
    }
}
