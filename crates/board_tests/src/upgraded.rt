//! A text in another order, written in the order of the second version.

use crate::boards::lines_of;
use board_reader::read_input;
use geo_rect::List;
use std::alloc::Global;
use std::test::Fail;
use text_upgrade::upgrade;

/// The text in the second version.
fn upgraded(alloc: Global, text: &str) -> Result<List<u8>, Fail> {
    let bytes = lines_of(alloc, text)?;
    match read_input(alloc, &bytes) {
        Ok(input) => Ok(upgrade(alloc, &input)?),
        Err(_) => Err("the text is read".into()),
    }
}

/// A gap that is the greater of the rules' gaps needs no line.
#[test]
fn gaps_are_written_where_they_are_told(rt: HostRuntime) -> Result<(), Fail> {
    for (clears, kept) in [
        ("", ""),
        ("clear top b a 3;", ""),
        (
            "clear top b b 2;clear top b a 9;",
            "clear top a b 9\nclear top b b 2\n",
        ),
    ] {
        let text = format!(in rt.alloc();
            "board 2 b 9 9;layer top;class a;class b;{clears}rule top b 1 3;rule top a 1 2;end;rules"
        )?;
        let wanted = format!(in rt.alloc();
            "board 2 b 9 9\nlayer top\nclass a\nclass b\nrule top a 1 2\nrule top b 1 3\n{kept}end\nrules\n"
        )?;
        let found = upgraded(rt.alloc(), &text)?;
        assert!(rt; found.as_slice() == wanted.as_bytes(), "{clears}");
    }
    Ok(())
}
