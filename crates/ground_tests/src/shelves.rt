// What no clause says: that calls succeed, what comes after a failure in mid-stream, and the real files.
ghost use Rattle.std.specs.Prelude.{◌≤◌, ◌^◌, IsTrue};

use pq_io::{
    ChooseError, MemShelf, MemSink, NeverShelf, NeverSink, NoMemory, ReadFail, RealShelf, Shelf,
    Whole, WriteFault, read_all, write_all,
};
use std::alloc::Global;
use std::fs;
use std::process::Abort;
use std::test::Fail;

// The bytes of a file that was read whole, and none where there were more than the limit.
fn bytes_of(read: &Result<Whole, ReadFail>) -> Result<Option<&[u8]>, ReadFail> {
    match read {
        Ok(Whole::Bytes(bytes)) => Ok(Some(bytes)),
        Ok(Whole::TooLong) => Ok(None),
        Err(fail) => Err(*fail),
    }
}

// What is left of the chosen file, read up to the limit, is what is wanted in the case with this number.
fn assert_left<F: Shelf>(
    rt: &impl Abort,
    alloc: Global,
    shelf: &mut F,
    limit: u64,
    case: u64,
    wanted: Result<Option<&[u8]>, ReadFail>,
)
    requires limit { limit ≤ 2 ^ 32 }
    requires chosen { IsTrue (F.has_chosen shelf.old) }
    ensures chosen { IsTrue (F.has_chosen shelf.new) }
{
    let read = read_all(alloc, shelf, limit);
    assert_eq!(rt; (case, bytes_of(&read)), (case, wanted));
}

// The file of this name is chosen, and then it is read up to the limit.
fn assert_file<F: Shelf>(
    rt: &impl Abort,
    alloc: Global,
    shelf: &mut F,
    name: &str,
    limit: u64,
    case: u64,
    wanted: Result<Option<&[u8]>, ReadFail>,
)
    requires { limit ≤ 2 ^ 32 }
    ensures { IsTrue (F.has_chosen shelf.new) }
{
    shelf.choose(alloc, name).expect(rt, name);
    assert_left(rt, alloc, shelf, limit, case, wanted);
}

fn assert_many_pieces(
    rt: &impl Abort,
    alloc: Global,
    shelf: &mut MemShelf,
    bytes: &[u8],
) -> Result<(), Fail> {
    shelf.add("a", b"first")?;
    shelf.add("a", bytes)?;
    assert_file(rt, alloc, shelf, "a", 199_999, 1, Ok(None));
    assert_file(rt, alloc, shelf, "a", 200_000, 2, Ok(Some(bytes)));
    Ok(())
}

#[test]
fn a_file_of_many_pieces_is_read_up_to_the_limit(rt: HostRuntime) -> Result<(), Fail> {
    let alloc = rt.alloc();
    let bytes = vec![in alloc; b'x'; 200_000]?;
    assert_many_pieces(&rt, alloc, &mut MemShelf::new(alloc), &bytes)
}

// A read of a file in pieces of four bytes fails at this call, and then this rest is left. Call 1 is the choice.
fn assert_rest(
    rt: &impl Abort,
    alloc: Global,
    shelf: &mut MemShelf,
    call: u64,
    rest: &str,
) -> Result<(), Fail> {
    shelf.add("a", b"abcdefghij")?;
    shelf.piece(4);
    shelf.fail_at(call)?;
    assert_file(rt, alloc, shelf, "a", 10, call, Err(ReadFail::Fault));
    assert_left(rt, alloc, shelf, 10, call, Ok(Some(rest.as_bytes())));
    Ok(())
}

// A failing read at its end, in its middle and at its start.
#[test]
fn a_failed_read_is_told_and_loses_nothing(rt: HostRuntime) -> Result<(), Fail> {
    let alloc = rt.alloc();
    for (call, rest) in [(2, "abcdefghij"), (3, "efghij"), (4, "ij"), (5, "")] {
        assert_rest(&rt, alloc, &mut MemShelf::new(alloc), call, rest)?;
    }
    Ok(())
}

// What five choices in turn answer, of which the first and the third are to fail.
fn choices(alloc: Global, shelf: &mut MemShelf) -> Result<[Result<(), ChooseError>; 5], NoMemory> {
    shelf.add("a", b"abc")?;
    shelf.fail_at(3)?;
    shelf.fail_at(1)?;
    Ok([
        shelf.choose(alloc, "a"),
        shelf.choose(alloc, "a"),
        shelf.choose(alloc, "a"),
        shelf.choose(alloc, "b"),
        shelf.choose(alloc, "a"),
    ])
}

#[test]
fn a_choice_fails_where_that_is_asked_for(rt: HostRuntime) -> Result<(), Fail> {
    let found = choices(rt.alloc(), &mut MemShelf::new(rt.alloc()))?;
    let failed = Err(ChooseError::Failed);
    assert_eq!(rt; found, [failed, Ok(()), failed, failed, Ok(())]);
    Ok(())
}

fn assert_never_fails(rt: &impl Abort, alloc: Global, shelf: &mut NeverShelf) -> Result<(), Fail> {
    shelf.add("a", b"first")?;
    shelf.add("a", b"abc")?;
    assert_file(rt, alloc, shelf, "a", 3, 1, Ok(Some(b"abc")));
    assert_file(rt, alloc, shelf, "missing", 3, 2, Ok(Some(b"")));
    assert_file(rt, alloc, shelf, "a", 3, 3, Ok(Some(b"abc")));
    Ok(())
}

#[test]
fn a_shelf_that_never_fails(rt: HostRuntime) -> Result<(), Fail> {
    let alloc = rt.alloc();
    assert_never_fails(&rt, alloc, &mut NeverShelf::new(alloc))
}

#[test]
fn a_sink_that_never_fails(rt: HostRuntime) {
    let mut sink = NeverSink::new();
    let writes = [
        write_all(&mut sink, b"abc"),
        write_all(&mut sink, b""),
        write_all(&mut sink, b"de"),
    ];
    assert_eq!(rt; (writes, sink.taken()), ([Ok(()); 3], 5));
}

// In the case with this number a write of the text has this outcome, and then the sink has these bytes.
fn assert_write(
    rt: &impl Abort,
    sink: &mut MemSink,
    text: &[u8],
    case: u64,
    outcome: Result<(), WriteFault>,
    bytes: &[u8],
) {
    let found = write_all(sink, text);
    assert_eq!(rt; (case, found, sink.bytes()), (case, outcome, bytes));
}

fn assert_room(rt: &impl Abort, sink: &mut MemSink) -> Result<(), Fail> {
    sink.reserve(3)?;
    assert_write(rt, sink, b"abcd", 1, Err(WriteFault), b"abc");
    sink.reserve(1)?;
    sink.reserve(1)?;
    assert_write(rt, sink, b"de", 2, Ok(()), b"abcde");
    Ok(())
}

#[test]
fn a_sink_takes_what_room_is_reserved_for(rt: HostRuntime) -> Result<(), Fail> {
    assert_room(&rt, &mut MemSink::new(rt.alloc()))
}

// A sink that takes eight bytes in a write, and fails at this write.
fn sink_that_fails_at(alloc: Global, call: u64) -> Result<MemSink, NoMemory> {
    let mut sink = MemSink::new(alloc);
    sink.reserve(100)?;
    sink.piece(8);
    sink.fail_at(call)?;
    Ok(sink)
}

#[test]
fn a_failed_write_is_told_and_adds_nothing(rt: HostRuntime) -> Result<(), Fail> {
    let text = b"pq-verdict 1\nkind matrix\n";
    for (call, written) in [(1, 0), (2, 8), (3, 16), (4, 24)] {
        let (front, rest) = text.split_at(written);
        let mut sink = sink_that_fails_at(rt.alloc(), call)?;
        assert_write(&rt, &mut sink, text, call, Err(WriteFault), front);
        assert_write(&rt, &mut sink, rest, call, Ok(()), text);
    }
    Ok(())
}

const PROGRAM: &str = "/proc/self/exe";

// Whether the file of this name has these bytes, which may be too many to be shown.
fn is_file<F: Shelf>(
    alloc: Global,
    shelf: &mut F,
    name: &str,
    bytes: &[u8],
) -> Result<bool, ChooseError> {
    shelf.choose(alloc, name)?;
    let read = read_all(alloc, shelf, 1 << 32);
    Ok(bytes_of(&read) == Ok(Some(bytes)))
}

fn assert_real_files<F: Shelf>(rt: &impl Abort, alloc: Global, shelf: &mut F, program: &[u8]) {
    let is_program = is_file(alloc, shelf, PROGRAM, program);
    let missing = [
        shelf.choose(alloc, ""),
        shelf.choose(alloc, "/proc/self/missing"),
        shelf.choose(alloc, "/proc/self/exe/below"),
    ];
    assert_eq!(rt;
        (is_program, missing),
        (Ok(true), [Err(ChooseError::Failed); 3])
    );
    // A directory opens, but it can't be read.
    assert_file(rt, alloc, shelf, "/proc/self", 10, 1, Err(ReadFail::Fault));
}

#[test]
fn a_real_file_is_read_whole(rt: HostRuntime) -> Result<(), Fail> {
    let program = fs::read(&rt, PROGRAM)?;
    assert_real_files(&rt, rt.alloc(), &mut RealShelf::new(rt), &program);
    Ok(())
}
