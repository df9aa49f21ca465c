//! What the words of a command line ask for. Nothing here allocates.
#![tactic(auto)]

mod concat;
mod convert;
mod deinterleave;
mod generate;
mod interleave;
mod metadata;
mod names;
mod options;
mod pairs;
mod plain;
mod raw;
mod repeats;
mod request;
mod salvage;
mod settings;
mod suffix;
mod topic;

pub use concat::Concatenation;
pub use convert::{CodecChoice, Conversion};
pub use deinterleave::Deinterleaving;
pub use generate::Generation;
pub use interleave::Interleaving;
pub use metadata::MetadataChange;
pub use names::Names;
pub use pairs::MetadataSettings;
pub use raw::{ExportForm, Exportation, ImportForm, Importation};
pub use repeats::first_repeated;
pub use request::{Request, Tool, request_of};
pub use salvage::Salvaging;
pub use settings::MetadataSetting;
pub use suffix::kind_by_suffix;
pub use topic::Topic;
