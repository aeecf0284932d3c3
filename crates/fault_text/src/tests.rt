//! The text of each fault.

use super::*;
use plain_text::LineText;

#[test]
fn faults_have_their_texts(rt: HostRuntime) {
    let rows: [(FrameFault, &[u8]); 10] = [
        (FrameFault::NotFramed, b"not framed"),
        (FrameFault::NotYamaha, b"not yamaha"),
        (FrameFault::DataByte { place: 161 }, b"byte 161"),
        (FrameFault::Short { length: 3 }, b"short 3"),
        (FrameFault::UnknownSubstatus { found: 3 }, b"substatus 3"),
        (FrameFault::UnknownFormat { found: 1 }, b"format 1"),
        (FrameFault::CountBytes { high: 1, low: 26 }, b"count 1 26"),
        (
            FrameFault::Length {
                found: 4103,
                wanted: 4104,
            },
            b"length 4103 wanted 4104",
        ),
        (
            FrameFault::Checksum {
                found: 1,
                wanted: 0,
            },
            b"checksum 1 wanted 0",
        ),
        (
            FrameFault::ParamValue {
                number: 134,
                value: 32,
            },
            b"value 32 of 134",
        ),
    ];
    for (fault, text) in rows {
        let mut line = LineText::new();
        push_frame_text(&fault, &mut line);
        assert_eq!(rt; line.as_slice(), text);
    }
}
