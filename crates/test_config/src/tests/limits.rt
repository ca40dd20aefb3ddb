//! Lists with as many entries as they may have, and with one more.
use super::{SPEAKER, judged};
use std::alloc::{AllocError, Global};
use std::test::Fail;
use xbgp_config::{MAX_COSTS, MAX_NETWORKS, MAX_PEERS};

const NETWORKS: &str = "[speaker]
as = 1
id = '1.1.1.1'
address = '1.1.1.1'
networks = [";

// Entries; X.Y differs from one to the next.
const NETWORK: &str = "'10.X.Y.0/24', ";

const PEER: &str = "[[peer]]\nas = 65001\naddress = '10.0.X.Y'\n";

const COST: &str = "[[cost]]\nnext_hop = '10.0.X.Y'\ncost = 7\n";

// What is before the entries of a list, an entry, the number of them, what is after them, and what is read of the
// whole.
type Case = (&'static str, &'static str, u32, &'static str, &'static str);

const CASES: [Case; 9] = [
    (NETWORKS, NETWORK, MAX_NETWORKS, "]\n", "good"),
    (
        NETWORKS,
        NETWORK,
        MAX_NETWORKS + 1,
        "]\n",
        "Count in Speaker 0",
    ),
    (
        NETWORKS,
        NETWORK,
        MAX_NETWORKS,
        "5]\n",
        "Count in Speaker 0",
    ),
    (SPEAKER, PEER, MAX_PEERS, "", "good"),
    (SPEAKER, PEER, MAX_PEERS + 1, "", "Count in Top 0"),
    (
        SPEAKER,
        PEER,
        MAX_PEERS,
        "[[peer]]\nas = 0\n",
        "Count in Top 0",
    ),
    (SPEAKER, COST, MAX_COSTS, "", "good"),
    (SPEAKER, COST, MAX_COSTS + 1, "", "Count in Top 0"),
    (
        SPEAKER,
        COST,
        MAX_COSTS,
        "[[cost]]\ncost = 'x'\n",
        "Count in Top 0",
    ),
];

fn push_entry(text: &mut String, alloc: Global, entry: &str, i: u32) -> Result<(), AllocError> {
    let numbers = format!(in alloc; "{}.{}", i / 256, i % 256)?;
    text.push_str(&entry.replace(alloc, "X.Y", &numbers)?)
}

fn listed(
    alloc: Global,
    before: &str,
    entry: &str,
    count: u32,
    after: &str,
) -> Result<String, AllocError> {
    let mut text = String::from_str(alloc, before)?;
    for i in 0..count {
        push_entry(&mut text, alloc, entry, i)?;
    }
    text.push_str(after)?;
    Ok(text)
}

#[test]
fn entries_are_counted(rt: HostRuntime) -> Result<(), Fail> {
    for (before, entry, count, after, want) in &CASES {
        let text = listed(rt.alloc(), before, entry, *count, after)?;
        let read = judged(rt.alloc(), text.as_bytes())?;
        assert_eq!(rt; read.as_str(), *want, "{count}");
    }
    Ok(())
}
