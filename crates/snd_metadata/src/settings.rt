//! What settings change together, and what they make of a broadcast extension and of an INFO list.

ghost use Rattle.std.specs.Prelude.{◌≡◌, ◌||◌, All, IfErr, OnOk, false};
ghost use Rattle.snd_output.specs.declared.stop.Stop.TheVariants as stop;
ghost use Rattle.snd_words.specs.Setting.{stated};
ghost use Rattle.snd_words.specs.Stated.{IsStated};
ghost use Rattle.snd_metadata.specs.Judged.{PutsSetting, PutsSettings};
ghost use Rattle.snd_metadata.specs.Settings.{are_too_long, is_too_long, set_fields, set_texts, sets_field, sets_text};

use snd_meta::{Bext, InfoList};
use snd_output::Stop;
use snd_words::{MetadataSetting, MetadataSettings};

/// The most bytes of a text of an INFO list.
const MOST_TEXT: usize = 1024;

/// What settings change, and whether a text of them is too long.
#[derive(Clone, Copy, Debug, PartialEq, Eq)]
pub(crate) struct Summary {
    pub fields: bool,
    pub texts: bool,
    pub too_long: bool,
}

/// What the two chunks say that settings change; of one that they do not change, what a new one says.
#[derive(Drop)]
pub(crate) struct Drafts {
    pub extension: Bext,
    pub texts: InfoList,
}

fn sets_text(setting: &MetadataSetting<'_>) -> bool
    ensures { result ≡ sets_text (stated setting.now) }
{
    matches!(setting, MetadataSetting::Text(_, _))
}

fn is_too_long(setting: &MetadataSetting<'_>) -> bool
    ensures { result ≡ is_too_long (stated setting.now) }
{
    match setting {
        MetadataSetting::Text(_, text) => text.len() > MOST_TEXT,
        MetadataSetting::Field(key, text) => text.len() > key.size(),
        MetadataSetting::Time(_) => false,
    }
}

// The summary of settings, with one more.
fn with_one(summary: Summary, setting: &MetadataSetting<'_>) -> Summary
    ensures fields { result.fields ≡ (summary.fields || sets_field (stated setting.now)) }
    ensures texts { result.texts ≡ (summary.texts || sets_text (stated setting.now)) }
    ensures too_long { result.too_long ≡ (summary.too_long || is_too_long (stated setting.now)) }
{
    let text = sets_text(setting);
    Summary {
        fields: summary.fields || !text,
        texts: summary.texts || text,
        too_long: summary.too_long || is_too_long(setting),
    }
}

/// What settings change together.
pub(crate) fn summary_of(settings: &MetadataSettings<'_>) -> Summary
    ensures fields { result.fields ≡ set_fields settings.now }
    ensures texts { result.texts ≡ set_texts settings.now }
    ensures too_long { result.too_long ≡ are_too_long settings.now }
{
    let mut summary = Summary {
        fields: false,
        texts: false,
        too_long: false,
    };
    for at in 0..settings.len() {
        let Some(setting) = settings.get(at) else {
            unreachable!()
        };
        summary = with_one(summary, &setting);
    }
    summary
}

// Puts what one setting says into the chunk that it changes.
fn put_setting(drafts: &mut Drafts, setting: &MetadataSetting<'_>) -> Result<(), Stop>
    requires good { IsStated (stated setting.now) }
    requires fits { is_too_long (stated setting.now) ≡ false }
    ensures put { OnOk result (PutsSetting (stated setting.now) drafts.old drafts.new) }
    ensures only { IfErr result (λ e. e ≡ stop.Memory) }
{
    match setting {
        MetadataSetting::Text(key, text) => match drafts.texts.set(*key, text.as_bytes()) {
            Ok(()) => Ok(()),
            Err(_) => Err(Stop::Memory),
        },
        MetadataSetting::Field(key, text) => match drafts.extension.set(*key, text.as_bytes()) {
            Ok(()) => Ok(()),
            Err(_) => Err(Stop::Memory),
        },
        MetadataSetting::Time(time) => {
            drafts.extension.set_time(*time);
            Ok(())
        }
    }
}

/// Puts all that is set into the chunks, one setting after the other.
pub(crate) fn put_settings(drafts: &mut Drafts, settings: &MetadataSettings<'_>) -> Result<(), Stop>
    requires good { All IsStated settings.now }
    requires fit { are_too_long settings.now ≡ false }
    ensures put { OnOk result (PutsSettings settings.now drafts.old drafts.new) }
    ensures only { IfErr result (λ e. e ≡ stop.Memory) }
{
    for at in 0..settings.len() {
        let Some(setting) = settings.get(at) else {
            unreachable!()
        };
        put_setting(drafts, &setting)?;
    }
    Ok(())
}
