// Lines of scripts: what they say, and what is refused.
use pages::page::PageLocation;
use rows::selector::RowSelector;
use scripts::WordError;
use scripts::command::{Arg, Command, Place, Tail};
use scripts::parse::parse;
use std::alloc::Global;
use std::test::Fail;

fn is_misuse(heap: Global, line: &[u8]) -> bool {
    matches!(parse(heap, line), Err(WordError::Malformed))
}

fn command(heap: Global, line: &[u8]) -> Result<Command, Fail> {
    parse(heap, line)?.ok_or_else(|| Fail::new("not a command"))
}

#[test]
fn a_line_of_runs_lists_them(rt: HostRuntime) -> Result<(), Fail> {
    let Command { head, tail, .. } = command(rt.alloc(), b"runs 15 0010 +5 -0")?;
    assert_eq!(rt;
        (head.get(0), head.get(1)),
        (Some(&Arg::Slot(15)), Some(&Arg::Number(10)))
    );
    let Tail::Runs(runs) = tail else {
        return Err(Fail::new("not runs"));
    };
    assert!(rt; runs.as_slice() == &[RowSelector::select(5), RowSelector::skip(0)][..]);
    Ok(())
}

#[test]
fn a_place_is_a_dash_or_has_a_size(rt: HostRuntime) -> Result<(), Fail> {
    let Command { head, .. } = command(rt.alloc(), b"split 1 2 18446744073709551615 r 4 -")?;
    assert_eq!(rt;
        (head.get(2), head.get(3)),
        (
            Some(&Arg::Number(usize::MAX)),
            Some(&Arg::Place(Place::Runs(4)))
        )
    );
    assert_eq!(rt;
        (head.get(4), head.get(5)),
        (Some(&Arg::Place(Place::Natural)), None)
    );
    Ok(())
}

#[test]
fn a_mask_has_its_bytes(rt: HostRuntime) -> Result<(), Fail> {
    let Command { tail, .. } = command(rt.alloc(), b"mask 0 0 16 0fa9")?;
    let Tail::Bytes(bytes) = tail else {
        return Err(Fail::new("not bytes"));
    };
    assert!(rt; bytes.as_slice() == &[0x0f, 0xa9][..]);
    Ok(())
}

#[test]
fn pages_are_signed(rt: HostRuntime) -> Result<(), Fail> {
    let Command { tail, .. } = command(
        rt.alloc(),
        b"scan 0 1 -9223372036854775808 -2147483648 -0",
    )?;
    let Tail::Pages(pages) = tail else {
        return Err(Fail::new("not pages"));
    };
    let page = PageLocation {
        offset: i64::MIN,
        compressed_page_size: i32::MIN,
        first_row_index: 0,
    };
    assert!(rt; pages.as_slice() == &[page][..]);
    assert!(rt; is_misuse(rt.alloc(), b"scan 0 1 0 2147483648 0"));
    Ok(())
}

#[test]
fn what_is_not_of_the_form_is_misuse(rt: HostRuntime) -> Result<(), Fail> {
    let heap = rt.alloc();
    for line in [
        &b"rows 16"[..],
        b"rows 1 ",
        b" rows 1",
        b"rows  1",
        b"rows 1 2",
        b"Rows 1",
    ] {
        assert!(rt; is_misuse(heap, line));
    }
    for line in [
        &b"give 1 18446744073709551616"[..],
        b"mask 0 0 8 AF",
        b"mask 0 0 8 abc",
        b"trim 1 r",
    ] {
        assert!(rt; is_misuse(heap, line));
    }
    Ok(())
}

#[test]
fn an_empty_line_and_a_remark_say_nothing(rt: HostRuntime) -> Result<(), Fail> {
    assert!(rt; matches!(parse(rt.alloc(), b"")?, None));
    assert!(rt; matches!(parse(rt.alloc(), b"#rows 1 ")?, None));
    Ok(())
}
