use crate::same::assert_same;
use reg_outside::{
    Lab, MemLab, MemSink, MemSource, MemWire, NullLab, Planned, Sink, Source, StdSink, StdSource,
    Wire,
};
use std::test::Fail;

/// How much each of three reads gives, with room for three bytes; none where it fails.
fn three_reads<S: Source>(source: &mut S) -> [Option<usize>; 3] {
    let mut buf = [0; 3];
    let first = source.read(&mut buf).ok();
    let second = source.read(&mut buf).ok();
    [first, second, source.read(&mut buf).ok()]
}

/// How much is taken of each of three pieces of three bytes; none where it fails.
fn three_writes<K: Sink>(sink: &mut K) -> [Option<usize>; 3] {
    let first = sink.write(b"abc").ok();
    let second = sink.write(b"def").ok();
    [first, second, sink.write(b"ghi").ok()]
}

/// Which of three updates are accepted.
fn three_updates<W: Wire>(wire: &mut W) -> [bool; 3] {
    let first = wire.update(0, 0x10, 0x7f, 1).is_ok();
    let second = wire.update(0, 0x10, 0x7f, 2).is_ok();
    [first, second, wire.update(0, 0x10, 0x7f, 3).is_ok()]
}

#[test]
fn the_second_read_fails(rt: HostRuntime) -> Result<(), Fail> {
    let bytes = b"hello".to_vec(rt.alloc())?;
    let mut source = MemSource::new(bytes, vec![in rt.alloc(); 2]?);
    assert_same(
        &rt,
        "reads",
        three_reads(&mut source),
        [Some(3), None, Some(2)],
    );
    Ok(())
}

#[test]
fn a_reader_is_read_to_its_end(rt: HostRuntime) {
    let mut source = StdSource::new(b"hello".as_slice());
    assert_same(
        &rt,
        "reads",
        three_reads(&mut source),
        [Some(3), Some(2), Some(0)],
    );
}

#[test]
fn five_bytes_fit(rt: HostRuntime) -> Result<(), Fail> {
    let mut sink = MemSink::new(rt.alloc(), 5, Vec::new(rt.alloc()))?;
    assert_same(
        &rt,
        "writes",
        three_writes(&mut sink),
        [Some(3), Some(2), None],
    );
    assert_same(&rt, "written", sink.bytes(), b"abcde".as_slice());
    Ok(())
}

#[test]
fn a_writer_that_takes_nothing_failed(rt: HostRuntime) {
    let mut space = [0; 4];
    let mut sink = StdSink::new(space.as_mut_slice());
    assert_same(
        &rt,
        "writes",
        three_writes(&mut sink),
        [Some(3), Some(1), None],
    );
}

#[test]
fn the_second_update_is_refused(rt: HostRuntime) -> Result<(), Fail> {
    let mut wire = MemWire::new(rt.alloc(), 2, vec![in rt.alloc(); 2]?)?;
    assert_same(
        &rt,
        "updates",
        three_updates(&mut wire),
        [true, false, true],
    );
    Ok(())
}

#[test]
fn a_lab_keeps_what_was_accepted(rt: HostRuntime) -> Result<(), Fail> {
    let fail = vec![in rt.alloc(); 1]?;
    let mut lab = MemLab::new(rt.alloc(), 1, 1)?;
    let mut wire = Planned::new(lab.wire(1), fail);
    let updates = three_updates(&mut wire);
    lab.back(1, wire.into_inner());
    assert_same(&rt, "updates", updates, [false, true, false]);
    let taken = [(0, 0x10, 0x7f, 2)];
    assert_same(&rt, "taken", lab.list(1), taken.as_slice());
    Ok(())
}

#[test]
fn a_null_wire_accepts_all(rt: HostRuntime) {
    let mut wire = NullLab.wire(9);
    assert_same(&rt, "updates", three_updates(&mut wire), [true, true, true]);
    NullLab.back(9, wire);
}
