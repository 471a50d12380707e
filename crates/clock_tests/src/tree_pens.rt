use crate::made_trees::{FIRST_HALVES, MadePen, full_text};
use crate::refused_with;
use std::process::Abort;
use std::test::*;

// Two halves, by the path to what is forked, as they print.
const HALVES: [(&str, &str, &str); 5] = [
    ("", "(1,0)", "(0,1)"),
    ("0", "((1,0),0)", "((0,1),0)"),
    ("1", "(0,(1,0))", "(0,(0,1))"),
    ("00", "(((1,0),0),0)", "(((0,1),0),0)"),
    ("01", "((0,(1,0)),0)", "((0,(0,1)),0)"),
];

#[test]
fn forks_in_halves(rt: HostRuntime) -> Result<(), Fail> {
    for (path, first, second) in HALVES {
        let halves = MadePen::at(path)?.fork()?;
        halves.0.shows(rt.alloc(), first)?;
        halves.1.shows(rt.alloc(), second)?;
    }
    Ok(())
}

// A pen of two parts is forked between them.
#[test]
fn forks_between_parts(rt: HostRuntime) -> Result<(), Fail> {
    let (first, second) = MadePen::at("00")?.unite(&MadePen::at("10")?)?.fork()?;
    first.shows(rt.alloc(), "((1,0),0)")?;
    second.shows(rt.alloc(), "(0,(1,0))")
}

// A part at depth 11 forks, a half of it does not, and the halves unite to it.
#[test]
fn forks_down_to_depth_12(rt: HostRuntime) -> Result<(), Fail> {
    for path in ["00000000000", "11111111111", "01010101010", "11100011100"] {
        let pen = MadePen::at(path)?;
        let (first, second) = pen.fork()?;
        last(&rt, &first);
        last(&rt, &second);
        parts(&rt, &first, &second, &pen)?;
    }
    last(&rt, &MadePen::none());
    Ok(())
}

// The pen cannot be forked.
fn last(rt: &impl Abort, pen: &MadePen) {
    assert_eq!(rt; refused_with(pen.fork()), Some(11));
}

// The two are different parts of the pen, and unite to it.
fn parts(rt: &impl Abort, first: &MadePen, second: &MadePen, pen: &MadePen) -> Result<(), Fail> {
    assert!(rt; first.unite(second)?.same(pen));
    assert!(rt; !first.same(second));
    assert!(rt; !first.same(pen));
    Ok(())
}

#[test]
fn unites_what_fork_parts(rt: HostRuntime) -> Result<(), Fail> {
    for (path, text) in [
        ("", "1"),
        ("0", "(1,0)"),
        ("01", "((0,1),0)"),
        ("110", "(0,(0,(1,0)))"),
    ] {
        let pen = MadePen::at(path)?;
        pen.shows(rt.alloc(), text)?;
        let (first, second) = pen.fork()?;
        first.unite(&second)?.shows(rt.alloc(), text)?;
        second.unite(&first)?.shows(rt.alloc(), text)?;
        pen.unite(&MadePen::none())?.shows(rt.alloc(), text)?;
    }
    MadePen::none().shows(rt.alloc(), "0")
}

// A pen and a half of it have a place in common.
#[test]
fn halves_do_not_unite_with_the_whole(rt: HostRuntime) -> Result<(), Fail> {
    for path in ["", "0", "01", "110"] {
        let pen = MadePen::at(path)?;
        let (first, second) = pen.fork()?;
        overlap(&rt, &pen, &first);
        overlap(&rt, &pen, &second);
    }
    Ok(())
}

fn overlap(rt: &impl Abort, a: &MadePen, b: &MadePen) {
    assert_eq!(rt; refused_with(a.unite(b)), Some(12));
    assert_eq!(rt; refused_with(b.unite(a)), Some(12));
}

// With 63 nodes: a part that splits one more is too much, one that completes a pair is not.
#[test]
fn unites_up_to_63_nodes(rt: HostRuntime) -> Result<(), Fail> {
    let pen = full_pen()?;
    let text = full_text(rt.alloc(), "", "(1,0)")?;
    pen.shows(rt.alloc(), text.as_str())?;
    for path in ["000010", "000011", "111110", "0111110"] {
        assert_eq!(rt; refused_with(pen.unite(&MadePen::at(path)?)), Some(13));
    }
    for path in FIRST_HALVES {
        let (part, rest) = MadePen::at(path)?.fork()?;
        overlap(&rt, &pen, &part);
        overlap(&rt, &pen, &rest);
    }
    assert!(rt; pen.unite(&MadePen::at("00001")?).is_ok());
    Ok(())
}

// The first halves, united.
fn full_pen() -> Result<MadePen, Fail> {
    let mut pen = MadePen::none();
    for path in FIRST_HALVES {
        pen = pen.unite(&MadePen::at(path)?)?;
    }
    Ok(pen)
}
