use crate::refused_with;
use std::test::Fail;
use vector_clock::Names;

// All names are forked down to one, and united again.
#[test]
fn forks_and_unites(rt: HostRuntime) -> Result<(), Fail> {
    let mut pen = Names::<16>::all();
    let mut rest = Names::<16>::none();
    for size in [8, 4, 2, 1] {
        let (lower, upper) = pen.fork()?;
        assert!(rt; lower.size() == size && upper.size() == size && upper.has(size));
        pen = lower;
        rest = rest.unite(&upper)?;
    }
    assert!(rt; pen.size() == 1 && pen.has(0) && refused_with(pen.fork()) == Some(11));
    assert!(rt; rest.size() == 15 && refused_with(rest.unite(&rest)) == Some(12));
    assert!(rt; rest.unite(&pen).is_ok());
    Ok(())
}

// An odd name goes to the lower half.
#[test]
fn writes_names(rt: HostRuntime) -> Result<(), Fail> {
    let (lower, upper) = Names::<5>::all().fork()?;
    let text = format!(in rt.alloc(); "{lower} {upper}")?;
    assert_eq!(rt; text.as_str(), "{0,1,2} {3,4}");
    Ok(())
}
