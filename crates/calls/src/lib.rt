//! Calls of a tray as values, the memory that is lent to them, and the promise over any run of calls.
#![tactic(auto)]

mod call;
mod laws;
mod making;
mod memory;
mod running;

pub use call::{Call, Reply};
pub use laws::laws_of_runs;
pub use making::make;
pub use memory::{Output, Work, WorkFor};
pub use running::{Settings, replay};

#[cfg(test)]
mod tests {
    use super::*;
    use books::Standard;
    use judging::{Judgement, Verdict};
    use tray::{Refusal, Tray};

    // Each has room in 66 numbers for tables and 66 for work: a slot over 3 sets has 27, one over 1 set 9, and one over 5
    // sets 33.
    const THREE_SETS: Settings = Settings {
        sets: 3,
        budget: 3,
        depth: 2,
    };

    const ONE_SET: Settings = Settings {
        sets: 1,
        budget: 3,
        depth: 1,
    };

    const FIVE_SETS: Settings = Settings {
        sets: 5,
        budget: 1,
        depth: 1,
    };

    const SUM: Call = Call::Place(Standard::SUM, &[0, 1, 2]);

    const ONE: Call = Call::Place(Standard::ONE, &[0]);

    // Output in which every byte is 9.
    fn nines<const BYTES: usize>() -> Output<3, BYTES> {
        Output {
            witness: [9; 3],
            counterexample: [9; 3],
            text: [9; BYTES],
        }
    }

    // The calls, and runs of them on a new tray. They promise nothing here, so that what a test does stays small for the
    // prover.
    fn made<const STATES: usize>(tray: &mut Tray, work: &mut WorkFor<STATES>, call: Call) -> Reply {
        let mut output: Output<3, 0> = Output::new();
        make(&Standard, tray, work, &mut output, call)
    }

    fn replayed<const BYTES: usize>(
        settings: Settings,
        calls: &[Call],
        next: Call,
        output: &mut Output<3, BYTES>,
    ) -> Result<Reply, Refusal> {
        let mut tables = [0u16; 66];
        let mut spare = [0u16; 66];
        let mut tray = Tray::over(&mut tables, &mut spare);
        let mut work: WorkFor<3> = Work::new();
        replay(
            &Standard, settings, &mut tray, calls, next, &mut work, output,
        )
    }

    // What the last of these calls is replied.
    fn told(settings: Settings, calls: &[Call], next: Call) -> Result<Reply, Refusal> {
        let mut output: Output<3, 0> = Output::new();
        replayed(settings, calls, next, &mut output)
    }

    // A sum for any two numbers: three states are met, and one is left.
    #[test]
    fn a_sum_hidden(rt: HostRuntime) -> Result<(), Refusal> {
        let mut tables = [0u16; 54];
        let mut spare = [0u16; 54];
        let mut tray = Tray::over(&mut tables, &mut spare);
        tray.open(3, 3, 2)?;
        let mut work: WorkFor<3> = Work::new();
        let placed = made(&mut tray, &mut work, SUM);
        assert_eq!(rt; placed, Reply::Built { met: 3, kept: 3 });
        let hidden = made(&mut tray, &mut work, Call::Hide(2));
        assert_eq!(rt; hidden, Reply::Built { met: 3, kept: 1 });
        assert_eq!(rt; made(&mut tray, &mut work, Call::Drop), Reply::Dropped);
        Ok(())
    }

    // Two records are too few for a budget of three.
    #[test]
    fn too_little_memory(rt: HostRuntime) -> Result<(), Refusal> {
        let mut tables = [0u16; 54];
        let mut spare = [0u16; 54];
        let mut tray = Tray::over(&mut tables, &mut spare);
        tray.open(3, 3, 2)?;
        let mut work: WorkFor<2> = Work::new();
        let placed = made(&mut tray, &mut work, SUM);
        assert_eq!(rt; placed, Reply::Refused(Refusal::NoMemory));
        Ok(())
    }

    // There is nothing to negate and no set 3, and the calls behind these happen all the same.
    #[test]
    fn refused_on_the_way(rt: HostRuntime) {
        let calls = [Call::Negate, SUM, Call::Hide(3)];
        assert_eq!(rt;
            told(THREE_SETS, &calls[..0], calls[0]),
            Ok(Reply::Refused(Refusal::TooFewTables))
        );
        assert_eq!(rt;
            told(THREE_SETS, &calls[..2], calls[2]),
            Ok(Reply::Refused(Refusal::NoSet))
        );
        assert_eq!(rt;
            told(THREE_SETS, &calls, Call::Hide(2)),
            Ok(Reply::Built { met: 3, kept: 1 })
        );
    }

    // No sets; and a third slot, for which there is no room.
    #[test]
    fn not_opened(rt: HostRuntime) {
        let none = Settings {
            sets: 0,
            ..THREE_SETS
        };
        let deeper = Settings {
            depth: 3,
            ..THREE_SETS
        };
        assert_eq!(rt; told(none, &[], SUM), Err(Refusal::WrongSets));
        assert_eq!(rt; told(deeper, &[], SUM), Err(Refusal::NoMemory));
    }

    // Exactly one member: {0} is the first set that has it, and the empty set has not.
    #[test]
    fn judged_with_both_words(rt: HostRuntime) {
        let some = Judgement {
            verdict: Verdict::SomeSets,
            states: 3,
            witness: Some(1),
            counterexample: Some(0),
        };
        let mut output: Output<3, 0> = nines();
        let judged = replayed(ONE_SET, &[ONE], Call::Judge, &mut output);
        assert_eq!(rt; judged, Ok(Reply::Judged(some)));
        assert!(rt; output.witness == [1, 9, 9]);
        assert!(rt; output.counterexample == [9, 9, 9]);
    }

    // No member so far, one, and more.
    #[test]
    fn saved_as_text(rt: HostRuntime) {
        let mut output: Output<3, 44> = nines();
        let saved = replayed(ONE_SET, &[ONE], Call::Save, &mut output);
        assert_eq!(rt; saved, Ok(Reply::Saved(44)));
        assert!(rt; output.text == *b"state accepts n0 n1\n0 0 0 1\n1 1 1 2\n2 0 2 2\n");
    }

    // Too many sets come first, then too few tables, then a buffer that is a byte too short.
    #[test]
    fn not_saved(rt: HostRuntime) {
        let mut output: Output<3, 43> = nines();
        let many_sets = replayed(FIVE_SETS, &[], Call::Save, &mut output);
        assert_eq!(rt; many_sets, Ok(Reply::Refused(Refusal::TooManySets)));
        let no_table = replayed(ONE_SET, &[], Call::Save, &mut output);
        assert_eq!(rt; no_table, Ok(Reply::Refused(Refusal::TooFewTables)));
        let short = replayed(ONE_SET, &[ONE], Call::Save, &mut output);
        assert_eq!(rt; short, Ok(Reply::Refused(Refusal::NoBuffer)));
        assert!(rt; output.text == [9; 43]);
        assert_eq!(rt; Refusal::TooManySets.number(), 20);
    }
}
