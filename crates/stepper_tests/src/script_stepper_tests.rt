//! A script forwards and backwards: memory suffices, and a command has the same outcome again after going back.

use ed_types::Outcome;
use macro_script::assemble;
use script_stepper::{StepFault, Stepper};

/// A view, a text inserted, the whole text handed out, and two questions, the first of which is refused.
const INSERTION: &[u8] =
    b"sci 1\nopen\nsend 1 2003 0 0 \"ab\\x0a\"\nsend 1 2182 0 0 \"\"\nsend 1 2003 9 0 \"z\"\nsend 1 2007 -1 0 \"\"\n";

/// Returns the value of the next command, or the negated number of its refusal; `None` at the end, or if an allocation
/// fails.
fn next_value(stepper: &mut Stepper) -> Option<i64> {
    match stepper.step() {
        Ok(Some(Outcome::Opened(id))) => Some(i64::from(id)),
        Ok(Some(Outcome::Closed)) => Some(0),
        Ok(Some(Outcome::Replied(reply))) => Some(reply.value()),
        Ok(Some(Outcome::Refused(refusal))) => Some(-i64::from(refusal as u8)),
        Ok(Some(Outcome::Expected { met, .. })) => Some(i64::from(met)),
        Ok(None) | Err(_) => None,
    }
}

/// Returns whether the next commands have these values.
fn gives(stepper: &mut Stepper, values: &[i64]) -> bool {
    for value in values {
        if next_value(stepper) != Some(*value) {
            return false;
        }
    }
    true
}

#[test]
fn steps_back_and_forwards(rt: HostRuntime) {
    let alloc = rt.alloc();
    let script = assemble(alloc, INSERTION).expect(&rt, "a script");
    let mut stepper = Stepper::new(alloc, script, Vec::new(alloc));
    assert_eq!(rt; stepper.state(), 0);
    assert_eq!(rt; stepper.commands().len(), 5);
    assert_eq!(rt; stepper.back(), Ok(false));
    assert!(rt; gives(&mut stepper, &[1, 0, 3]));
    assert_eq!(rt; stepper.state(), 3);
    assert_eq!(rt; stepper.back(), Ok(true));
    assert!(rt; gives(&mut stepper, &[3]));
    // The text is inserted once, although its command is performed twice.
    assert_eq!(rt; stepper.back(), Ok(true));
    assert_eq!(rt; stepper.back(), Ok(true));
    assert_eq!(rt; stepper.state(), 1);
    assert!(rt; gives(&mut stepper, &[0, 3]));
    assert_eq!(rt; stepper.run_to(6), Err(StepFault::OutOfRange));
    assert_eq!(rt; stepper.state(), 3);
    assert_eq!(rt; stepper.run_to(5), Ok(()));
    assert_eq!(rt; next_value(&mut stepper), None);
    assert_eq!(rt; stepper.state(), 5);
    assert_eq!(rt; stepper.run_to(3), Ok(()));
    assert!(rt; gives(&mut stepper, &[-6, 0]));
    assert_eq!(rt; stepper.run_to(0), Ok(()));
    assert!(rt; gives(&mut stepper, &[1, 0, 3, -6, 0]));
}
