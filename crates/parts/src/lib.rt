// The parts of an interval: the decoder's, a bucket's, and whether a pin holds (document 01, "Levels, interval by interval").

#![tactic(auto)]

ghost use Rattle.std.specs.Prelude.{◌≡◌};
ghost use Rattle.model.specs.Step.{decoder_step, bucket_step, pin_held};
ghost use Rattle.format.specs.Choices.{choice_of};
ghost use Rattle.parts.specs.Answers.{decoded, drained};

use header::Choice;

// The violations, document 01's breaches and document 02's of a second bucket, in the order in which they are tested.
#[derive(Clone, Copy, Debug, PartialEq, Eq)]
pub enum Violation {
    DecoderOverflow,
    DecoderUnderflow,
    BucketOverflow,
    SecondOverflow,
    PinNotHeld,
}

// The bucket's part of an interval: its level at the end, and what it could have drained besides.
#[derive(Clone, Copy, Debug, PartialEq, Eq)]
pub struct Drained {
    pub level: u32,
    pub unused: u32,
}

// The decoder's part of an interval: its level at the end, or the limit that it violates. (16), and its limits: over by the peak, which stands before the unit leaves; then short.
pub fn decoder_step(size: u16, level: u16, sent: u16, taken: u16) -> Result<u16, Violation>
    ensures { decoded result ≡ decoder_step size level sent taken }
{
    let peak = level as u32 + sent as u32;
    if (size as u32) < peak {
        return Err(Violation::DecoderOverflow);
    }
    if peak < taken as u32 {
        return Err(Violation::DecoderUnderflow);
    }
    Ok((peak - taken as u32) as u16)
}

// Example 1: the larger of level + sent - drain and 0. The larger of drain - level - sent and 0 goes unused.
pub fn bucket_step(drain: u16, level: u16, sent: u16) -> Drained
    ensures { drained result ≡ bucket_step drain level sent }
{
    // what it held, what came, and the most that leaves
    let held = level as u32;
    let came = sent as u32;
    let most = drain as u32;
    let full = held + came;
    if full < most {
        return Drained {
            level: 0,
            unused: most - full,
        };
    }
    Drained {
        level: full - most,
        unused: 0,
    }
}

// Whether there is no pin, or the choice is the pinned one.
pub fn pin_holds(pin: Choice, choice: Choice) -> bool
    ensures { result ≡ pin_held (choice_of pin) (choice_of choice) }
{
    if pin == header::NO_CHOICE {
        return true;
    }
    choice == pin
}
