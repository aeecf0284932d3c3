//! How the level, the speed and the pitch of an operator follow the note that is played and its velocity.
#![tactic(auto)]

mod fields;
mod levels;
mod operator_at_note;
mod pitch;
mod scaling;

pub use operator_at_note::{operator_pitch, out_level, rate_scale};

#[cfg(test)]
mod tests {
    use super::*;
    use dx_tables::Tables;
    use std::test::Fail;
    use voice_record::Voice;

    /// The opening voice with these settings of operator 1 from the break point on.
    fn voice_with(settings: [u8; 13]) -> Voice {
        let mut fields = Voice::init().bytes();
        for i in 0..13usize {
            fields[113 + i] = settings[i];
        }
        Voice::from_bytes(&fields)
    }

    #[test]
    fn follows_note_and_velocity(rt: HostRuntime) {
        for (scaling, sensitivity, level, note, velocity, out) in [
            ([39, 0, 50, 0, 0], 0, 99, 69, 100, 3552),
            ([39, 0, 0, 0, 0], 7, 99, 69, 100, 4080),
            ([39, 0, 0, 0, 0], 7, 99, 69, 1, 720),
            ([39, 99, 0, 0, 0], 0, 99, 55, 100, 4064),
            ([39, 99, 0, 0, 0], 0, 99, 54, 100, 3840),
            ([39, 99, 0, 0, 0], 0, 80, 53, 100, 3232),
            ([99, 99, 0, 2, 0], 0, 40, -24, 100, 4064),
            ([0, 0, 99, 0, 1], 0, 99, 151, 100, 0),
            ([0, 0, 99, 0, 3], 0, 20, 151, 100, 4064),
            ([39, 60, 0, 3, 0], 3, 50, 30, 64, 3680),
        ] {
            let [point, left, right, left_curve, right_curve] = scaling;
            let voice = voice_with([
                point,
                left,
                right,
                left_curve,
                right_curve,
                0,
                0,
                sensitivity,
                level,
                0,
                1,
                0,
                7,
            ]);
            assert!(rt; 1 <= velocity && velocity <= 127);
            assert_eq!(rt; out_level(&voice, 1, note, velocity), out);
        }
        let voice = voice_with([39, 0, 0, 0, 0, 7, 0, 0, 99, 0, 1, 0, 7]);
        for (note, scale) in [(-24, 0), (21, 0), (60, 11), (111, 26), (114, 27), (151, 27)] {
            assert_eq!(rt; rate_scale(&voice, 1, note), scale);
        }
    }

    #[test]
    fn tunes_operators(rt: HostRuntime) -> Result<(), Fail> {
        let tables = Tables::new(rt.alloc())?;
        for (mode, coarse, fine, detune, note, pitch) in [
            (0, 1, 0, 7, 69, 147_326_746),
            (0, 0, 99, 0, -24, 17_093_785),
            (0, 31, 99, 14, 151, 361_832_782),
            (0, 3, 50, 8, 60, 171_161_743),
            (1, 2, 50, 0, 60, 139_331_750),
            (1, 2, 50, 14, 60, 139_425_949),
            (1, 31, 99, 8, 60, 222_386_930),
            (1, 4, 0, 7, 60, 0),
        ] {
            let voice = voice_with([39, 0, 0, 0, 0, 0, 0, 0, 99, mode, coarse, fine, detune]);
            assert_eq!(rt; operator_pitch(&tables, &voice, 1, note), pitch);
        }
        Ok(())
    }
}
