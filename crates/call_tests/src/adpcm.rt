//! VOX, which no file holds here.
use snd_vox::*;

// What sox 14.4.2 reads from the bytes 7f 08, and writes of these samples. Later it can differ, since it rounds the whole
// distance of a code and not its parts.
#[test]
fn reads_and_writes_vox(rt: HostRuntime) {
    let mut reader = VoxReader::new();
    assert!(rt; reader.next(0x7f) == (480, -528));
    assert!(rt; reader.next(0x08) == (-384, -512));
    let mut writer = VoxWriter::new();
    assert!(rt; writer.put(480, -528) == 0x7f);
    assert!(rt; writer.put(-384, -512) == 0x08);
}
