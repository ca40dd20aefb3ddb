//! Texts, and what is read of each: a table for each part of the text.
use super::{Case, SPEAKER};

// The text before each text of a table, and the table.
pub(super) const TABLES: [(&str, &[Case]); 13] = [
    ("", &TOP),
    (SPEAKER, &LISTS),
    ("[speaker]\n", &AS),
    ("[speaker]\nas = 1\n", &ID),
    ("[speaker]\nas = 4294967295\nid = '255.1.1.1'\n", &ADDRESS),
    (
        "[speaker]\nas = 1\nid = '0.0.0.1'\naddress = '126.255.255.255'\n",
        &HOLD_AND_PREFERENCE,
    ),
    (
        "[speaker]\nas = 4294967295\nid = '255.255.255.255'\naddress = '128.0.0.0'\n",
        &IN_RANGE,
    ),
    (
        "[speaker]\nas = 1\nid = '1.1.1.1'\naddress = '1.1.1.1'\n",
        &NETWORKS,
    ),
    (SPEAKER, &PEERS),
    (SPEAKER, &COSTS),
    (SPEAKER, &GOOD),
    ("", &FIRST),
    (SPEAKER, &FIRST_IN_LISTS),
];

// The keys of the whole text, and what the speaker may be.
const TOP: [Case; 11] = [
    ("", "Missing in Top 0"),
    ("peer = []", "Missing in Top 0"),
    ("[speaker", "Text in Top 0"),
    ("mtu = 9223372036854775808", "Text in Top 0"),
    ("mtu = 1500", "Key in Top 0"),
    ("map = []", "Key in Top 0"),
    ("speaker = 5", "Shape in Speaker 0"),
    ("speaker = []", "Shape in Speaker 0"),
    ("[[speaker]]", "Shape in Speaker 0"),
    ("speaker = {}", "Missing in Speaker 0"),
    (
        "speaker = {as = 1, id = '1.1.1.1', address = '1.1.1.1', mtu = 1}",
        "Key in Speaker 0",
    ),
];

// Lists that are not arrays.
const LISTS: [Case; 6] = [
    ("peer = 5", "Shape in Top 0"),
    ("peer = {}", "Shape in Top 0"),
    ("peer = '192.0.2.1'", "Shape in Top 0"),
    ("cost = 5", "Shape in Top 0"),
    ("[cost]", "Shape in Top 0"),
    ("cost = true", "Shape in Top 0"),
];

const AS: [Case; 9] = [
    (
        "id = '1.1.1.1'\naddress = '1.1.1.1'",
        "Missing in Speaker 0",
    ),
    ("as = '65000'", "Shape in Speaker 0"),
    ("as = true", "Shape in Speaker 0"),
    ("as = 1.0", "Shape in Speaker 0"),
    ("as = [65000]", "Shape in Speaker 0"),
    ("as = 1979-05-27", "Shape in Speaker 0"),
    ("as = 0", "Range in Speaker 0"),
    ("as = 4294967296", "Range in Speaker 0"),
    ("as = -1", "Range in Speaker 0"),
];

const ID: [Case; 6] = [
    ("address = '1.1.1.1'", "Missing in Speaker 0"),
    ("id = 16843009", "Shape in Speaker 0"),
    ("id = '0.0.0.0'", "Range in Speaker 0"),
    ("id = '1.1.1'", "Range in Speaker 0"),
    ("id = '1.1.1.256'", "Range in Speaker 0"),
    ("id = '01.1.1.1'", "Range in Speaker 0"),
];

const ADDRESS: [Case; 8] = [
    ("hold = 90", "Missing in Speaker 0"),
    ("address = 16843009", "Shape in Speaker 0"),
    ("address = ''", "Range in Speaker 0"),
    ("address = '0.1.1.1'", "Range in Speaker 0"),
    ("address = '127.0.0.1'", "Range in Speaker 0"),
    ("address = '224.0.0.1'", "Range in Speaker 0"),
    ("address = '255.255.255.255'", "Range in Speaker 0"),
    ("address = '1.1.1.1.1'", "Range in Speaker 0"),
];

const HOLD_AND_PREFERENCE: [Case; 10] = [
    ("hold = '90'", "Shape in Speaker 0"),
    ("hold = 90.0", "Shape in Speaker 0"),
    ("hold = 1", "Range in Speaker 0"),
    ("hold = 2", "Range in Speaker 0"),
    ("hold = 65536", "Range in Speaker 0"),
    ("hold = -1", "Range in Speaker 0"),
    ("local_pref = '100'", "Shape in Speaker 0"),
    ("local_pref = false", "Shape in Speaker 0"),
    ("local_pref = -1", "Range in Speaker 0"),
    ("local_pref = 4294967296", "Range in Speaker 0"),
];

// The ends of ranges.
const IN_RANGE: [Case; 10] = [
    ("hold = 0", "good"),
    ("hold = 3", "good"),
    ("hold = 65535", "good"),
    ("local_pref = 0", "good"),
    ("local_pref = 4294967295", "good"),
    ("networks = []", "good"),
    ("networks = ['0.0.0.0/0', '255.255.255.255/32']", "good"),
    ("networks = ['10.0.0.0/8', '10.0.0.0/9']", "good"),
    ("[[peer]]\nas = 1\naddress = '1.0.0.0'", "good"),
    (
        "[[peer]]\nas = 4294967295\naddress = '223.255.255.255'",
        "good",
    ),
];

const NETWORKS: [Case; 10] = [
    ("networks = 5", "Shape in Speaker 0"),
    ("networks = '10.0.0.0/8'", "Shape in Speaker 0"),
    ("networks = {}", "Shape in Speaker 0"),
    ("networks = [8]", "Shape in Network 1"),
    ("networks = ['10.0.0.0/8', []]", "Shape in Network 2"),
    ("networks = ['10.0.0.0']", "Range in Network 1"),
    ("networks = ['10.0.0.0/33']", "Range in Network 1"),
    ("networks = ['1.0.0.0/8', '10.0.0/8']", "Range in Network 2"),
    (
        "networks = ['1.0.0.0/8', '1.0.0.0/8']",
        "Double in Network 2",
    ),
    (
        "networks = ['10.0.0.0/8', '11.0.0.0/8', '10.1.2.3/8']",
        "Double in Network 3",
    ),
];

const PEERS: [Case; 18] = [
    ("peer = [5]", "Shape in Peer 1"),
    ("peer = [[]]", "Shape in Peer 1"),
    ("peer = [{}]", "Missing in Peer 1"),
    (
        "peer = [{as = 1, address = '1.1.1.1', hold = 90}]",
        "Key in Peer 1",
    ),
    ("peer = [{address = '1.1.1.1'}]", "Missing in Peer 1"),
    (
        "peer = [{as = '1', address = '1.1.1.1'}]",
        "Shape in Peer 1",
    ),
    ("peer = [{as = 0, address = '1.1.1.1'}]", "Range in Peer 1"),
    (
        "peer = [{as = 4294967296, address = '1.1.1.1'}]",
        "Range in Peer 1",
    ),
    ("peer = [{as = 1}]", "Missing in Peer 1"),
    ("peer = [{as = 1, address = 1}]", "Shape in Peer 1"),
    ("peer = [{as = 1, address = '1.1.1'}]", "Range in Peer 1"),
    ("peer = [{as = 1, address = '0.0.0.0'}]", "Range in Peer 1"),
    (
        "peer = [{as = 1, address = '127.0.0.1'}]",
        "Range in Peer 1",
    ),
    (
        "peer = [{as = 1, address = '224.0.0.5'}]",
        "Range in Peer 1",
    ),
    (
        "peer = [{as = 1, address = '240.0.0.1'}]",
        "Range in Peer 1",
    ),
    (
        "peer = [{as = 1, address = '192.0.2.254'}]",
        "Double in Peer 1",
    ),
    (
        "peer = [{as = 1, address = '1.1.1.1'}, {as = 2, address = '1.1.1.1'}]",
        "Double in Peer 2",
    ),
    (
        "peer = [{as = 1, address = '1.1.1.1'}, {as = 1, address = '2.1.1.1'}, {as = 1}]",
        "Missing in Peer 3",
    ),
];

const COSTS: [Case; 12] = [
    ("cost = [5]", "Shape in Cost 1"),
    ("cost = [{}]", "Missing in Cost 1"),
    (
        "cost = [{next_hop = '1.1.1.1', cost = 1, as = 1}]",
        "Key in Cost 1",
    ),
    ("cost = [{cost = 1}]", "Missing in Cost 1"),
    ("cost = [{next_hop = 1, cost = 1}]", "Shape in Cost 1"),
    ("cost = [{next_hop = '1.1', cost = 1}]", "Range in Cost 1"),
    ("cost = [{next_hop = '1.1.1.1'}]", "Missing in Cost 1"),
    (
        "cost = [{next_hop = '1.1.1.1', cost = '1'}]",
        "Shape in Cost 1",
    ),
    (
        "cost = [{next_hop = '1.1.1.1', cost = 1.5}]",
        "Shape in Cost 1",
    ),
    (
        "cost = [{next_hop = '1.1.1.1', cost = -1}]",
        "Range in Cost 1",
    ),
    (
        "cost = [{next_hop = '1.1.1.1', cost = 4294967296}]",
        "Range in Cost 1",
    ),
    (
        "cost = [{next_hop = '1.1.1.1', cost = 1}, {next_hop = '1.1.1.1', cost = 2}]",
        "Double in Cost 2",
    ),
];

// Lists that are accepted.
const GOOD: [Case; 3] = [
    (
        "peer = [{as = 65000, address = '192.0.2.1'}, {as = 65000, address = '192.0.2.2'}]",
        "good",
    ),
    (
        "cost = [{next_hop = '0.0.0.0', cost = 0}, {next_hop = '255.255.255.255', cost = 4294967295}]",
        "good",
    ),
    (
        "cost = [{next_hop = '192.0.2.254', cost = 7}, {next_hop = '127.0.0.1', cost = 7}]",
        "good",
    ),
];

// Of two faults, the first in the order of tables and keys is reported.
const FIRST: [Case; 14] = [
    // the text, before anything in it
    ("mtu = 1\n[speaker", "Text in Top 0"),
    // a key that is not listed, before a table that is missing and before any other fault
    ("mtu = 1\npeer = 5", "Key in Top 0"),
    ("mtu = 1\nspeaker = 5", "Key in Top 0"),
    ("speaker = {mtu = 1}", "Key in Speaker 0"),
    // the speaker, before peers, also if it is missing
    ("peer = 5\ncost = 5", "Missing in Top 0"),
    ("speaker = {as = 0}\npeer = 5", "Range in Speaker 0"),
    // the AS, before the identifier, before the address, before the other keys
    (
        "speaker = {as = '1', address = '0.0.0.0'}",
        "Shape in Speaker 0",
    ),
    (
        "speaker = {as = 1, address = '0.0.0.0'}",
        "Missing in Speaker 0",
    ),
    (
        "speaker = {as = 1, id = '0.0.0.0', address = 5}",
        "Range in Speaker 0",
    ),
    (
        "speaker = {as = 1, id = '1.1.1.1', hold = 2}",
        "Missing in Speaker 0",
    ),
    // the hold time, before the degree of preference, before networks, before peers
    (
        "speaker = {as = 1, id = '1.1.1.1', address = '1.1.1.1', local_pref = '1', hold = 2}",
        "Range in Speaker 0",
    ),
    (
        "speaker = {as = 1, id = '1.1.1.1', address = '1.1.1.1', networks = 5, local_pref = -1}",
        "Range in Speaker 0",
    ),
    (
        "speaker = {as = 1, id = '1.1.1.1', address = '1.1.1.1', networks = ['x', 5]}",
        "Range in Network 1",
    ),
    (
        "peer = 5\nspeaker = {as = 1, id = '1.1.1.1', address = '1.1.1.1', networks = ['1.0.0.0/8', '1.0.0.0/8', 5]}",
        "Double in Network 2",
    ),
];

// The same in the order of lists and their entries.
const FIRST_IN_LISTS: [Case; 11] = [
    // peers, before costs
    ("cost = 5\npeer = [5]", "Shape in Peer 1"),
    // a key that is not listed, before one that is missing
    ("peer = [{mtu = 1}]", "Key in Peer 1"),
    ("cost = [{mtu = 1}]", "Key in Cost 1"),
    // the AS of a peer, before its address, before what an earlier entry has
    ("peer = [{address = '0.0.0.0'}]", "Missing in Peer 1"),
    ("peer = [{as = 0, address = 5}]", "Range in Peer 1"),
    (
        "peer = [{as = 0, address = '192.0.2.254'}]",
        "Range in Peer 1",
    ),
    // a next hop, before its cost, before what an earlier entry has
    ("cost = [{cost = '1'}]", "Missing in Cost 1"),
    ("cost = [{next_hop = 'x', cost = '1'}]", "Range in Cost 1"),
    (
        "cost = [{next_hop = '1.1.1.1', cost = 1}, {next_hop = '1.1.1.1', cost = -1}]",
        "Range in Cost 2",
    ),
    // an earlier entry, before a later one
    (
        "peer = [{as = 1, address = '1.1.1.1'}, {as = 1, address = '1.1.1.1'}, 5]",
        "Double in Peer 2",
    ),
    (
        "cost = [{next_hop = '1.1.1.1', cost = 1}, {next_hop = '1.1.1.1', cost = 1}, 5]",
        "Double in Cost 2",
    ),
];
