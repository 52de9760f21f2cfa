// What the names of a small source stand for, node by node.
use crate::rows::parsed;
use hy_base::Fault;
use hy_scope::resolve;
use hy_types::Resolved;
use std::alloc::{AllocError, Global};
use std::test::Fail;

const SOURCE: &str = "fun main() { var x = 1; print(x) }";

const MEANINGS: &str =
    "Nothing Nothing Nothing Nothing Nothing Nothing Nothing Nothing Nothing Built(0) Nothing Local(5).";

fn resolved(alloc: Global, source: &str) -> Result<Resolved, Fault> {
    let tree = parsed(alloc, source.as_bytes())?;
    resolve(alloc, &tree)
}

fn meanings_text(alloc: Global, resolved: &Resolved) -> Result<String, AllocError> {
    let mut text = String::new(alloc);
    for meant in &resolved.meant {
        if !text.is_empty() {
            text.push_str(" ")?;
        }
        let one = format!(in alloc; "{meant:?}")?;
        text.push_str(one.as_str())?;
    }
    text.push_str(".")?;
    Ok(text)
}

#[test]
fn what_names_stand_for(rt: HostRuntime) -> Result<(), Fail> {
    let Ok(table) = resolved(rt.alloc(), SOURCE) else {
        return Err("refused")?;
    };
    let found = meanings_text(rt.alloc(), &table)?;
    assert_eq!(rt; found.as_str(), MEANINGS);
    Ok(())
}
