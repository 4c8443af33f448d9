// Listings written out by hand.
use listing::{Listing, Marks, TaskMark, write_listing};
use refusal::{Fault, Refusal};
use std::process::Abort;
use std::test::Fail;

fn mark(bound: u32, deadline: u32, load: u64) -> TaskMark {
    TaskMark {
        bound,
        deadline,
        load,
    }
}

// Writes a listing into a buffer of dots: its text stands at the start, and the dots after it.
fn expect(rt: &impl Abort, listing: &Listing, text: &[u8]) -> Result<(), Fail> {
    let mut buffer = [b'.'; 2048];
    let count = write_listing(&mut buffer, listing)?;
    assert_eq!(rt; count, text.len());
    assert!(rt; count <= buffer.len());
    assert!(rt; &buffer[0..count] == text);
    for byte in &buffer[count..] {
        assert_eq!(rt; *byte, b'.');
    }
    Ok(())
}

#[test]
fn an_accepted_plan(rt: HostRuntime) -> Result<(), Fail> {
    expect(&rt, &Ok(Marks::new()), b"accepted 0\n")?;
    let mut marks = Marks::new();
    assert!(rt; marks.add_part(1000));
    assert!(rt; marks.add_task(mark(11, 15, 500)));
    assert!(rt; marks.add_part(4167));
    assert!(rt; marks.add_task(mark(12, 40, 334)));
    expect(
        &rt,
        &Ok(marks),
        b"accepted 2\npart 1 load 1000\npart 2 load 4167\ntask 1 bound 11 deadline 15 load 500\ntask 2 bound 12 deadline 40 load 334\n",
    )
}

#[test]
fn refusals(rt: HostRuntime) -> Result<(), Fail> {
    let table: [(Fault, u32, &[u8]); 6] = [
        (Fault::BadWord, 7, b"refused 3 words 7\n"),
        (Fault::BadLine, 1, b"refused 4 lines 1\n"),
        (Fault::TooMany, u32::MAX, b"refused 5 plan 4294967295\n"),
        (Fault::NoWindow, 5, b"refused 10 judge 5\n"),
        (Fault::JobPending, 0, b"refused 17 run 0\n"),
        (Fault::BufferTooShort, 0, b"refused 18 list 0\n"),
    ];
    for (fault, line, text) in table {
        expect(&rt, &Err(Refusal::new(fault, line, 0)), text)?;
    }
    Ok(())
}

#[test]
fn the_shortest_buffer(rt: HostRuntime) -> Result<(), Fail> {
    let listing: Listing = Err(Refusal::new(Fault::NoWindow, 5, 2));
    let mut buffer = [b'.'; 2048];
    let mut short = [b'.'; 2047];
    let refused = write_listing(&mut short, &listing);
    assert!(rt; refused == Err(Refusal::plain(Fault::BufferTooShort)));
    assert!(rt; short == [b'.'; 2047]);
    assert_eq!(rt; write_listing(&mut buffer, &listing)?, 19);
    Ok(())
}

// The largest numbers in all places, and no room for more.
#[test]
fn the_longest_listing(rt: HostRuntime) -> Result<(), Fail> {
    let mut marks = Marks::new();
    for _ in 0..9 {
        assert!(rt; marks.add_part(u64::MAX));
    }
    for _ in 0..16 {
        assert!(rt; marks.add_task(mark(u32::MAX, u32::MAX, u64::MAX)));
    }
    assert!(rt; !marks.add_part(1));
    assert!(rt; !marks.add_task(mark(1, 1, 1)));
    let mut buffer = [b'.'; 2048];
    assert_eq!(rt; write_listing(&mut buffer, &Ok(marks))?, 1436);
    assert!(rt; &buffer[0..45] == b"accepted 16\npart 1 load 18446744073709551615\n".as_slice());
    let last: &[u8] = b"task 16 bound 4294967295 deadline 4294967295 load 18446744073709551615\n..";
    assert!(rt; &buffer[1365..1438] == last);
    Ok(())
}
