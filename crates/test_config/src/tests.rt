mod accepted;
mod limits;
mod texts;

use std::alloc::Global;
use std::process::Abort;
use std::test::Fail;
use xbgp_config::read_config;

// A text, and what is read of it: "good", or the fault.
type Case = (&'static str, &'static str);

// A speaker's table without a fault.
const SPEAKER: &str = "speaker = {as = 65000, id = '192.0.2.254', address = '192.0.2.254'}\n";

// "good", or the error as it is displayed.
fn judged(alloc: Global, text: &[u8]) -> Result<String, Fail> {
    match read_config(alloc, text) {
        Ok(_) => Ok(String::from_str(alloc, "good")?),
        Err(error) => Ok(format!(in alloc; "{error}")?),
    }
}

// Each text of a table, after the text before it, is read as its case says.
fn expect(rt: &(impl AllocGlobal + Abort), before: &str, cases: &[Case]) -> Result<(), Fail> {
    for (text, want) in cases {
        let whole = format!(in rt.alloc(); "{before}{text}")?;
        assert_eq!(rt;
            judged(rt.alloc(), whole.as_bytes())?.as_str(),
            *want,
            "{text}"
        );
    }
    Ok(())
}

#[test]
fn texts_are_judged(rt: HostRuntime) -> Result<(), Fail> {
    for (before, cases) in texts::TABLES {
        expect(&rt, before, cases)?;
    }
    let no_text = judged(rt.alloc(), &[b'#', 0xff, b'\n'])?;
    assert_eq!(rt; no_text.as_str(), "Text in Top 0");
    Ok(())
}
