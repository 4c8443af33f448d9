// Lines written out by hand.
use calls::{Answer, Call, Got};
use refusal::{Fault, Refusal};
use std::alloc::Global;
use std::process::Abort;
use std::test::Fail;
use transcript::{Line, call_of};

// The answer prints as this text.
fn expect(rt: &impl Abort, alloc: Global, answer: Answer, text: &str) -> Result<(), Fail> {
    let printed = Line(answer).to_string(alloc)?;
    assert!(rt; printed.as_str() == text);
    Ok(())
}

#[test]
fn lines_of_calls(rt: HostRuntime) {
    let table: [(&[u8], Call); 10] = [
        (b"offer 2 30", Call::Offer(2, 30)),
        (b"release 16 7", Call::Release(16, 7)),
        (b"hold 1 5", Call::Hold(1, 5)),
        (b"letgo 9", Call::LetGo(9)),
        (b"end 12", Call::End(12)),
        (b"tick", Call::Tick),
        (b"offer 0 0", Call::Offer(0, 0)),
        (b"release 1000000 1000000", Call::Release(1000000, 1000000)),
        (b"letgo 0", Call::LetGo(0)),
        (b"end 1000000", Call::End(1000000)),
    ];
    for (line, call) in table {
        assert!(rt; call_of(line) == Some(call));
    }
}

#[test]
fn lines_of_no_call(rt: HostRuntime) {
    let table: [&[u8]; 24] = [
        b"",
        b" ",
        b"offer 1000001 1",
        b"hold 1 1000001",
        b"end 4294967297",
        b"release 01 1",
        b"letgo 00",
        b"offer  1 2",
        b"offer 1  2",
        b" tick",
        b"tick ",
        b"end 1 ",
        b"Tick",
        b"END 1",
        b"offer",
        b"offer 1",
        b"hold 1 2 3",
        b"letgo",
        b"end 1 2",
        b"tick 1",
        b"ticks",
        b"let go 1",
        b"end -1",
        b"end 1\n",
    ];
    for line in table {
        assert!(rt; call_of(line) == None);
    }
}

#[test]
fn answers(rt: HostRuntime) -> Result<(), Fail> {
    let table: [(Answer, &str); 19] = [
        (Answer::Done, "done"),
        (Answer::Ticked(Got::Nobody), "tick nobody"),
        (Answer::Ticked(Got::Part(1)), "tick part 1"),
        (Answer::Ticked(Got::Part(1000)), "tick part 1000"),
        (
            Answer::Ticked(Got::Part(4_294_967_295)),
            "tick part 4294967295",
        ),
        (Answer::Ticked(Got::Task(2, None)), "tick task 2"),
        (
            Answer::Ticked(Got::Task(4_294_967_295, None)),
            "tick task 4294967295",
        ),
        (Answer::Ticked(Got::Task(2, Some(7))), "tick task 2 ended 7"),
        (
            Answer::Ticked(Got::Task(16, Some(12))),
            "tick task 16 ended 12",
        ),
        (
            Answer::Ticked(Got::Task(9, Some(140))),
            "tick task 9 ended 140",
        ),
        (
            Answer::Ticked(Got::Task(16, Some(1_000_000))),
            "tick task 16 ended 1000000",
        ),
        (
            Answer::Ticked(Got::Task(4_294_967_295, Some(4_294_967_295))),
            "tick task 4294967295 ended 4294967295",
        ),
        (
            Answer::Refused(Refusal::plain(Fault::BufferTooShort)),
            "refused 18 list 0 task 0",
        ),
        (
            Answer::Refused(Refusal::new(Fault::BadWord, 16_384, 0)),
            "refused 3 words 16384 task 0",
        ),
        (
            Answer::Refused(Refusal::new(Fault::HoldAboveBlocking, 4_294_967_295, 4_294_967_295)),
            "refused 8 plan 4294967295 task 4294967295",
        ),
        (
            Answer::Refused(Refusal::new(Fault::JobPending, 0, 3)),
            "refused 17 run 0 task 3",
        ),
        (
            Answer::Refused(Refusal::plain(Fault::NotAccepted)),
            "refused 11 run 0 task 0",
        ),
        (
            Answer::Refused(Refusal::new(Fault::Misfit, 5, 2)),
            "refused 7 plan 5 task 2",
        ),
        (
            Answer::Refused(Refusal::plain(Fault::SheetTooLong)),
            "refused 1 words 0 task 0",
        ),
    ];
    for (answer, text) in table {
        expect(&rt, rt.alloc(), answer, text)?;
    }
    Ok(())
}
