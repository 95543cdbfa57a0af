//! A number by which equal places are looked for. Nothing rests on it but time.
use crate::alike::{is_run, said_to};
use crate::happenings::{drops, is_passed, repeats, timeouts};
use crate::place::{Happened, Place};
use crate::seen::{is_any_violated, is_any_wrong, is_before, is_touched};
use crate::system::System;
use iom_litmus_test::{Observable, Spot, Test};

/// The number with one more mixed in.
fn mixed(number: u64, next: u64) -> u64 {
    (number.rotate_left(5) ^ next).wrapping_mul(0x517c_c1b7_2722_0a95)
}

fn mixed_text(number: u64, text: Option<&[u8]>) -> u64 {
    let Some(text) = text else {
        return mixed(number, 256);
    };
    let mut number = number;
    for byte in text {
        number = mixed(number, *byte as u64);
    }
    number
}

fn of_columns(mut number: u64, test: &Test, happened: &[Happened]) -> u64 {
    for (column, cells) in test.columns.as_slice().iter().enumerate() {
        for (place, cell) in cells.cells.as_slice().iter().enumerate() {
            number = mixed(number, is_passed(happened, column, place) as u64);
            if cell.label.is_some() {
                let spot = Spot {
                    column,
                    cell: place,
                };
                number = mixed_text(number, said_to(happened, spot));
            }
        }
    }
    number
}

fn of_observable(number: u64, happened: &[Happened], observable: Observable) -> u64 {
    match observable {
        Observable::Answer(spot) => mixed_text(number, said_to(happened, spot)),
        Observable::Touched(reach) => mixed(number, is_touched(happened, reach) as u64),
        Observable::Before { first, then } => {
            let run = mixed(number, is_run(happened, first) as u64);
            mixed(run, is_before(happened, first, then) as u64)
        }
        Observable::Wrong => mixed(number, is_any_wrong(happened) as u64),
        Observable::Violated => mixed(number, is_any_violated(happened) as u64),
        Observable::Stuck { .. } | Observable::Memory { .. } => number,
    }
}

impl<S: System> Place<S> {
    pub(crate) fn fingerprint(&self, test: &Test) -> u64 {
        let happened = self.happened.as_slice();
        let mut number = self.system.fingerprint();
        number = mixed(number, drops(happened) as u64);
        number = mixed(number, repeats(happened) as u64);
        number = mixed(number, timeouts(happened) as u64);
        number = of_columns(number, test, happened);
        for observable in test.observables.as_slice() {
            number = of_observable(number, happened, *observable);
        }
        number
    }
}
