use pf_gen::net_text;
use std::test::Fail;

#[test]
fn no_arcs(rt: HostRuntime) -> Result<(), Fail> {
    let text = net_text(rt.alloc(), 7, 3, 0)?;
    assert_eq!(rt;
        text.as_slice(),
        b"p par 3 0\ni 0 1 1000 1\nn 1 s\nn 3 t\nend\n".as_slice()
    );
    Ok(())
}

#[test]
fn five_arcs(rt: HostRuntime) -> Result<(), Fail> {
    let text = net_text(rt.alloc(), 42, 5, 5)?;
    let wanted =
        b"p par 5 5\ni 0 1 1000 1\nn 1 s\nn 5 t\na 2 5 6851 -6\na 3 3 653 0\na 4 2 728 0\na 1 4 347 53\na 3 5 929 0\nend\n";
    assert_eq!(rt; text.as_slice(), wanted.as_slice());
    Ok(())
}
