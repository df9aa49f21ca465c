//! Microsoft ADPCM in WAVE files: a channel's state between two codes.

ghost use Rattle.std.specs.Prelude.{◌≤◌, unsigned_abs};
ghost use Rattle.snd_ima_adpcm.specs.Frames.{Is16Bit};

/// Where one channel stands between two codes.
#[derive(Clone, Copy)]
pub(crate) struct MsState {
    pub(crate) newer_by: i32,
    pub(crate) older_by: i32,
    pub(crate) newer: i32,
    pub(crate) older: i32,
    pub(crate) delta: i32,
    ghost newer_weighs: { unsigned_abs newer_by ≤ 512 },
    ghost older_weighs: { unsigned_abs older_by ≤ 256 },
    ghost newer_fits: { unsigned_abs newer ≤ 32768 },
    ghost older_fits: { unsigned_abs older ≤ 32768 },
    ghost newer_range: { Is16Bit newer },
    ghost older_range: { Is16Bit older },
    ghost delta_fits: { unsigned_abs delta ≤ 1048576 },
}
