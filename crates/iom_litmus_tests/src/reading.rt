use iom_litmus_reader::{ReadFault, Why, read};
use iom_litmus_test::{Observable, QuestionKind, Spot, Test};
use std::alloc::Global;
use std::process::Abort;
use std::test::Fail;

const DRAIN: &[u8] = b"VIZKRUN drain
\"An access in flight, and the fence that waits for it\"
{
world 64 1
device 000001 raw; attach 000001 first
(* nothing
   else *)
grant 000001 3 5 rw
}
 DRIVER                          | DEVICE                    ;
 release 000001 3                | w: write 000001 0x3000 aa ;
 await poll = \"confirmed 1-1\"    | v: if w = \"accepted *\": write 000001 0x3001 bb & status 000001 ;
 f: free 5                       |                           ;
hardware fetch, commit, drop 2
locations [DEVICE:w; DEVICE:v;]
~exists (DRIVER:f = \"free yes\" /\\ touch 000001 5 after DRIVER:f)
";

fn expect(rt: &impl Abort, holds: bool) {
    assert!(rt; holds);
}

fn expect_columns(rt: &impl Abort, test: &Test) {
    let [driver, device] = test.columns.as_slice() else {
        return expect(rt, false);
    };
    expect(rt, driver.name.as_slice() == b"DRIVER".as_slice());
    let [_, poll, free] = driver.cells.as_slice() else {
        return expect(rt, false);
    };
    expect(rt, poll.awaited.is_some());
    expect(rt, free.label.is_some());
    let [_, again] = device.cells.as_slice() else {
        return expect(rt, false);
    };
    expect(rt, again.condition.is_some());
    expect(rt, again.lines.as_slice().len() == 2);
}

// Each part of a file is where it belongs.
#[test]
fn a_test_is_read(rt: HostRuntime) -> Result<(), Fail> {
    let test = read(rt.alloc(), DRAIN).expect(&rt, "it is a test");
    expect(&rt, test.name.as_slice() == b"drain".as_slice());
    expect(&rt, test.opening.as_slice().len() == 4);
    expect_columns(&rt, &test);
    expect(
        &rt,
        test.parts.fetch && test.parts.commit && !test.parts.deliver,
    );
    expect(&rt, test.budgets.drops == 2);
    expect(&rt, test.question.kind == QuestionKind::NotExists);
    let seen = test.observables.as_slice();
    expect(&rt, seen.len() == 4);
    let first = Observable::Answer(Spot { column: 1, cell: 0 });
    expect(&rt, seen.first() == Some(&first));
    Ok(())
}

fn why_not(alloc: Global, bytes: &[u8]) -> Option<ReadFault> {
    match read(alloc, bytes) {
        Ok(_) => None,
        Err(fault) => Some(fault),
    }
}

// What isn't a test is refused with its line.
#[test]
fn a_line_is_named(rt: HostRuntime) -> Result<(), Fail> {
    let alloc = rt.alloc();
    let no_name = ReadFault::Line {
        number: 1,
        why: Why::NoName,
    };
    expect(&rt, why_not(alloc, b"VIZKRAN drain\n") == Some(no_name));
    let unfinished = ReadFault::Line {
        number: 2,
        why: Why::NoQuestion,
    };
    expect(
        &rt,
        why_not(alloc, b"VIZKRUN drain\n{\n") == Some(unfinished),
    );
    let no_cell = ReadFault::Line {
        number: 6,
        why: Why::NoSuchCell,
    };
    let asks_of_none = b"VIZKRUN t\n{\n}\n A ;\n a: poll ;\nexists (A:b = \"x\")\n";
    expect(&rt, why_not(alloc, asks_of_none) == Some(no_cell));
    let twice = ReadFault::Line {
        number: 6,
        why: Why::LabelTwice,
    };
    let labelled_twice = b"VIZKRUN t\n{\n}\n A ;\n a: poll ;\n a: poll ;\nexists (A:a = \"x\")\n";
    expect(&rt, why_not(alloc, labelled_twice) == Some(twice));
    let no_part = ReadFault::Line {
        number: 6,
        why: Why::BadPart,
    };
    let loads_by_itself =
        b"VIZKRUN t\n{\n}\n A ;\n a: poll ;\nhardware load\nexists (A:a = \"x\")\n";
    expect(&rt, why_not(alloc, loads_by_itself) == Some(no_part));
    Ok(())
}
