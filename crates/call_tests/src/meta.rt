//! Drafts that are copied, which no command does.
use snd_meta::*;
use std::test::Fail;

/// A list of one text.
const INFO: [u8; 14] = *b"INFOINAM\x02\0\0\0A\0";

#[test]
fn copies_drafts(rt: HostRuntime) -> Result<(), Fail> {
    let alloc = rt.alloc();
    let list = InfoList::read(alloc, &INFO)?.duplicate(alloc)?;
    assert!(rt; list.text(InfoKey::Title) == Some(b"A".as_slice()));
    let copy = Bext::new(alloc).duplicate(alloc)?;
    assert_eq!(rt; copy.time(), 0);
    Ok(())
}
