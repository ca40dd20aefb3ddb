//! Texts, and what `check` prints of each: a table for each part of the text.
use super::Case;

// The text before each text of a table, the table, and the text after it.
pub(super) const TABLES: [(&str, &[Case], &str); 10] = [
    ("", &TOP, ""),
    ("version = 1\nmap = [", &MAPS, "]"),
    (THREE_WIDE, &ROOM, "]"),
    ("version = 1\nprogram = [", &PROGRAMS, "]"),
    (
        "version = 1\nprogram = [{name = 'p', point = 'outbound', fuel = 1, code = '",
        &CODE,
        "'}]",
    ),
    (
        "version = 1\nmap = [{name = 'a', key = 1, value = 1, entries = 1}]\nprogram = [",
        &SAME_NAME,
        "]",
    ),
    ("", &FIRST, ""),
    ("version = 1\nmap = [", &FIRST_IN_MAPS, "]"),
    (TOO_WIDE, &ROOM_FIRST, "]"),
    ("version = 1\nprogram = [", &FIRST_IN_PROGRAMS, "]"),
];

// Three maps that take 3 * 65,536 * 320 of the 67,108,864 octets that there are.
const THREE_WIDE: &str = "version = 1
map = [
    {name = 'a', key = 64, value = 256, entries = 65536},
    {name = 'b', key = 64, value = 256, entries = 65536},
    {name = 'c', key = 64, value = 256, entries = 65536},
";

// Maps that take too much together, with a program that is not a table.
const TOO_WIDE: &str = "version = 1
program = 5
map = [
    {name = 'a', key = 64, value = 256, entries = 65536},
    {name = 'b', key = 64, value = 256, entries = 65536},
    {name = 'c', key = 64, value = 256, entries = 65536},
    {name = 'd', key = 64, value = 256, entries = 65536},
";

// The keys of the whole text.
const TOP: [Case; 25] = [
    ("", "missing top 0 0"),
    ("map = []", "missing top 0 0"),
    ("[version", "text top 0 0"),
    ("version = 9223372036854775808", "text top 0 0"),
    ("version = 1\nversion = 1", "text top 0 0"),
    ("version = '1'", "type top 0 0"),
    ("version = 1.0", "type top 0 0"),
    ("version = true", "type top 0 0"),
    ("version = [1]", "type top 0 0"),
    ("version = 0", "range top 0 0"),
    ("version = 2", "range top 0 0"),
    ("version = -1", "range top 0 0"),
    ("version = 1\npeer = []", "key top 0 0"),
    ("version = 1\nMap = []", "key top 0 0"),
    ("version = 1\nmap = 5", "type top 0 0"),
    ("version = 1\nmap = {}", "type top 0 0"),
    ("version = 1\nmap = 'a'", "type top 0 0"),
    ("version = 1\nprogram = 5", "type top 0 0"),
    ("version = 1\n[program]", "type top 0 0"),
    ("version = 1\nprogram = false", "type top 0 0"),
    ("version = 1", "maps 0\nprograms 0"),
    ("version = 0x1", "maps 0\nprograms 0"),
    ("version = 1\nmap = []", "maps 0\nprograms 0"),
    ("version = 1\nprogram = []", "maps 0\nprograms 0"),
    ("program = []\nmap = []\nversion = 1", "maps 0\nprograms 0"),
];

const MAPS: [Case; 41] = [
    ("5", "type map 1 0"),
    ("[]", "type map 1 0"),
    ("{}", "missing map 1 0"),
    (
        "{name = 'a', key = 1, value = 1, entries = 1, code = ''}",
        "key map 1 0",
    ),
    ("{key = 1, value = 1, entries = 1}", "missing map 1 0"),
    (
        "{name = 5, key = 1, value = 1, entries = 1}",
        "type map 1 0",
    ),
    (
        "{name = ['a'], key = 1, value = 1, entries = 1}",
        "type map 1 0",
    ),
    (
        "{name = '', key = 1, value = 1, entries = 1}",
        "range map 1 0",
    ),
    (
        "{name = 'A', key = 1, value = 1, entries = 1}",
        "range map 1 0",
    ),
    (
        "{name = 'a b', key = 1, value = 1, entries = 1}",
        "range map 1 0",
    ),
    (
        "{name = 'a.b', key = 1, value = 1, entries = 1}",
        "range map 1 0",
    ),
    (
        "{name = 'é', key = 1, value = 1, entries = 1}",
        "range map 1 0",
    ),
    (
        "{name = 'a/', key = 1, value = 1, entries = 1}",
        "range map 1 0",
    ),
    (
        "{name = 'a:', key = 1, value = 1, entries = 1}",
        "range map 1 0",
    ),
    (
        "{name = 'a`', key = 1, value = 1, entries = 1}",
        "range map 1 0",
    ),
    (
        "{name = 'a{', key = 1, value = 1, entries = 1}",
        "range map 1 0",
    ),
    (
        "{name = 'a23456789-123456789-123456789-123', key = 1, value = 1, entries = 1}",
        "range map 1 0",
    ),
    ("{name = 'a', value = 1, entries = 1}", "missing map 1 0"),
    (
        "{name = 'a', key = '1', value = 1, entries = 1}",
        "type map 1 0",
    ),
    (
        "{name = 'a', key = 1.0, value = 1, entries = 1}",
        "type map 1 0",
    ),
    (
        "{name = 'a', key = 0, value = 1, entries = 1}",
        "range map 1 0",
    ),
    (
        "{name = 'a', key = 65, value = 1, entries = 1}",
        "range map 1 0",
    ),
    (
        "{name = 'a', key = -1, value = 1, entries = 1}",
        "range map 1 0",
    ),
    ("{name = 'a', key = 1, entries = 1}", "missing map 1 0"),
    (
        "{name = 'a', key = 1, value = true, entries = 1}",
        "type map 1 0",
    ),
    (
        "{name = 'a', key = 1, value = 0, entries = 1}",
        "range map 1 0",
    ),
    (
        "{name = 'a', key = 1, value = 257, entries = 1}",
        "range map 1 0",
    ),
    (
        "{name = 'a', key = 1, value = -256, entries = 1}",
        "range map 1 0",
    ),
    ("{name = 'a', key = 1, value = 1}", "missing map 1 0"),
    (
        "{name = 'a', key = 1, value = 1, entries = []}",
        "type map 1 0",
    ),
    (
        "{name = 'a', key = 1, value = 1, entries = 0}",
        "range map 1 0",
    ),
    (
        "{name = 'a', key = 1, value = 1, entries = 65537}",
        "range map 1 0",
    ),
    (
        "{name = 'a', key = 1, value = 1, entries = 4294967297}",
        "range map 1 0",
    ),
    (
        "{name = 'a', key = 1, value = 1, entries = 1}, {name = 'a', key = 1, value = 1, entries = 1}",
        "double map 2 0",
    ),
    (
        "{name = 'a', key = 1, value = 1, entries = 1}, {name = 'b', key = 2, value = 2, entries = 2}, {name = 'a', key = 3, value = 3, entries = 3}",
        "double map 3 0",
    ),
    (
        "{name = 'a', key = 1, value = 1, entries = 1}, {name = 'b', key = 1, value = 1}",
        "missing map 2 0",
    ),
    (
        "{name = 'a', key = 64, value = 256, entries = 65536}",
        "maps 1\nprograms 0",
    ),
    (
        "{name = 'a', key = 1, value = 1, entries = 1}",
        "maps 1\nprograms 0",
    ),
    (
        "{name = 'a23456789-123456789-123456789-12', key = 1, value = 1, entries = 1}",
        "maps 1\nprograms 0",
    ),
    (
        "{name = 'az09_-', key = 1, value = 1, entries = 1}",
        "maps 1\nprograms 0",
    ),
    (
        "{entries = 1, value = 1, key = 1, name = '-'}",
        "maps 1\nprograms 0",
    ),
];

const ROOM: [Case; 3] = [
    (
        "{name = 'd', key = 64, value = 256, entries = 65536}",
        "room top 0 0",
    ),
    // two octets more than there are
    (
        "{name = 'd', key = 32, value = 32, entries = 65536}, {name = 'e', key = 1, value = 1, entries = 1}",
        "room top 0 0",
    ),
    // 65,536 * (3 * 320 + 64) is 67,108,864
    (
        "{name = 'd', key = 32, value = 32, entries = 65536}",
        "maps 4\nprograms 0",
    ),
];

const PROGRAMS: [Case; 35] = [
    ("5", "type program 1 0"),
    ("'p'", "type program 1 0"),
    ("{}", "missing program 1 0"),
    (
        "{name = 'p', point = 'inbound', fuel = 1, code = '9500000000000000', key = 1}",
        "key program 1 0",
    ),
    (
        "{point = 'inbound', fuel = 1, code = '9500000000000000'}",
        "missing program 1 0",
    ),
    (
        "{name = 5, point = 'inbound', fuel = 1, code = '9500000000000000'}",
        "type program 1 0",
    ),
    (
        "{name = '', point = 'inbound', fuel = 1, code = '9500000000000000'}",
        "range program 1 0",
    ),
    (
        "{name = 'P', point = 'inbound', fuel = 1, code = '9500000000000000'}",
        "range program 1 0",
    ),
    (
        "{name = 'p23456789_123456789_123456789_123', point = 'inbound', fuel = 1, code = '9500000000000000'}",
        "range program 1 0",
    ),
    (
        "{name = 'p', fuel = 1, code = '9500000000000000'}",
        "missing program 1 0",
    ),
    (
        "{name = 'p', point = 1, fuel = 1, code = '9500000000000000'}",
        "type program 1 0",
    ),
    (
        "{name = 'p', point = '', fuel = 1, code = '9500000000000000'}",
        "range program 1 0",
    ),
    (
        "{name = 'p', point = 'Inbound', fuel = 1, code = '9500000000000000'}",
        "range program 1 0",
    ),
    (
        "{name = 'p', point = 'inbound ', fuel = 1, code = '9500000000000000'}",
        "range program 1 0",
    ),
    (
        "{name = 'p', point = 'export', fuel = 1, code = '9500000000000000'}",
        "range program 1 0",
    ),
    (
        "{name = 'p', point = 'inbound', code = '9500000000000000'}",
        "missing program 1 0",
    ),
    (
        "{name = 'p', point = 'inbound', fuel = '1', code = '9500000000000000'}",
        "type program 1 0",
    ),
    (
        "{name = 'p', point = 'inbound', fuel = 1.0, code = '9500000000000000'}",
        "type program 1 0",
    ),
    (
        "{name = 'p', point = 'inbound', fuel = 0, code = '9500000000000000'}",
        "range program 1 0",
    ),
    (
        "{name = 'p', point = 'inbound', fuel = 1000001, code = '9500000000000000'}",
        "range program 1 0",
    ),
    (
        "{name = 'p', point = 'inbound', fuel = -1, code = '9500000000000000'}",
        "range program 1 0",
    ),
    (
        "{name = 'p', point = 'inbound', fuel = 1}",
        "missing program 1 0",
    ),
    (
        "{name = 'p', point = 'inbound', fuel = 1, code = 95}",
        "type program 1 0",
    ),
    (
        "{name = 'p', point = 'inbound', fuel = 1, code = [149]}",
        "type program 1 0",
    ),
    (
        "{name = 'p', point = 'inbound', fuel = 1, code = '9'}",
        "range program 1 0",
    ),
    (
        "{name = 'p', point = 'inbound', fuel = 1, code = '950000000000000'}",
        "range program 1 0",
    ),
    (
        "{name = 'p', point = 'inbound', fuel = 1, code = '0x95000000000000'}",
        "range program 1 0",
    ),
    (
        "{name = 'p', point = 'inbound', fuel = 1, code = '95 0000000000000'}",
        "range program 1 0",
    ),
    (
        "{name = 'p', point = 'inbound', fuel = 1, code = '950000000000000g'}",
        "range program 1 0",
    ),
    (
        "{name = 'p', point = 'inbound', fuel = 1, code = '9500000000000000'}, {name = 'p', point = 'encode', fuel = 2, code = '9500000000000000'}",
        "double program 2 0",
    ),
    (
        "{name = 'p', point = 'inbound', fuel = 1, code = '9500000000000000'}, {name = 'q', point = 'inbound', fuel = 1, code = ''}",
        "length program 2 0",
    ),
    (
        "{name = 'p', point = 'inbound', fuel = 100, code = '9500000000000000'}",
        "maps 0\nprograms 1",
    ),
    (
        "{name = 'p', point = 'inbound', fuel = 1, code = '9500000000000000'}",
        "maps 0\nprograms 1",
    ),
    (
        "{name = 'p', point = 'inbound', fuel = 1000000, code = '9500000000000000'}",
        "maps 0\nprograms 1",
    ),
    (
        "{name = 'p', point = 'inbound', fuel = 100, code = 'B7000000FfFfFfFf9500000000000000'}",
        "maps 0\nprograms 1",
    ),
];

// The code of a program at the outbound point.
const CODE: [Case; 20] = [
    // no octets, and no whole slots
    ("", "length program 1 0"),
    ("95", "length program 1 0"),
    ("950000000000000000", "length program 1 0"),
    // no such instruction
    ("00000000000000009500000000000000", "opcode program 1 0"),
    ("b700000000000000ff00000000000000", "opcode program 1 1"),
    // r11
    ("b70b0000000000009500000000000000", "register program 1 0"),
    (
        "b700000000000000bfb00000000000009500000000000000",
        "register program 1 1",
    ),
    // EXIT with an immediate, and a move of an immediate with a source
    ("9500000001000000", "reserved program 1 0"),
    (
        "b700000000000000b7100000000000009500000000000000",
        "reserved program 1 1",
    ),
    // a 64-bit load without a second slot, and with an opcode there
    ("1800000000000000", "widepair program 1 0"),
    (
        "b70000000000000018000000000000009500000000000000",
        "widepair program 1 1",
    ),
    // over the end, to before the beginning, and to a second slot
    ("05000100000000009500000000000000", "jump program 1 0"),
    (
        "b7000000000000000500fdff000000009500000000000000",
        "jump program 1 1",
    ),
    (
        "0500010000000000180000000000000000000000000000009500000000000000",
        "jump program 1 0",
    ),
    // a move to r10, and a load
    ("b70a0000000000009500000000000000", "writer10 program 1 0"),
    (
        "b700000000000000790a0000000000009500000000000000",
        "writer10 program 1 1",
    ),
    // helper 10 in the second slot, and the greatest number
    (
        "b700000000000000850000000a0000009500000000000000",
        "helper program 1 1",
    ),
    ("85000000ffffffff9500000000000000", "helper program 1 0"),
    // the last instruction goes on, and is a 64-bit load
    ("b700000007000000", "openend program 1 0"),
    (
        "950000000000000018000000000000000000000000000000",
        "openend program 1 1",
    ),
];

// A map and a program may have one name.
const SAME_NAME: [Case; 1] = [(
    "{name = 'a', point = 'inbound', fuel = 1, code = '9500000000000000'}",
    "maps 1\nprograms 1",
)];

// Of two faults, the first in the order of tables, keys and entries is reported.
const FIRST: [Case; 9] = [
    // a key that is not listed, before all else
    ("peer = 1", "key top 0 0"),
    ("peer = 1\nversion = 2\nmap = 5", "key top 0 0"),
    (
        "version = 1\nmap = [{name = 5, point = 'inbound'}]",
        "key map 1 0",
    ),
    (
        "version = 1\nprogram = [{name = 5, value = 1}]",
        "key program 1 0",
    ),
    // the version, before maps, before programs
    ("map = 5", "missing top 0 0"),
    ("version = 2\nmap = [5]", "range top 0 0"),
    ("version = 1\nprogram = 5\nmap = [5]", "type map 1 0"),
    ("version = 1\nmap = 5\nprogram = 5", "type top 0 0"),
    ("version = 1\nprogram = [5]\nmap = [{}]", "missing map 1 0"),
];

// The keys of an entry in their order, and then whether its name is double.
const FIRST_IN_MAPS: [Case; 6] = [
    ("{key = 0, value = 0, entries = 0}", "missing map 1 0"),
    ("{name = 'a', key = 0, value = true}", "range map 1 0"),
    ("{name = 'a', key = 1, entries = 0}", "missing map 1 0"),
    (
        "{name = 'a', key = 1, value = true, entries = 0}",
        "type map 1 0",
    ),
    (
        "{name = 'a', key = 1, value = 1, entries = 1}, {name = 'a', key = 1, value = 1, entries = 0}",
        "range map 2 0",
    ),
    (
        "{name = 'a', key = 1, value = 1, entries = 1}, {name = 'a', key = 1, value = 1, entries = 1}, 5",
        "double map 2 0",
    ),
];

// The room is judged after the last map, before programs.
const ROOM_FIRST: [Case; 2] = [
    ("", "room top 0 0"),
    (
        "{name = 'a', key = 1, value = 1, entries = 1}",
        "double map 5 0",
    ),
];

// The keys of an entry in their order, then whether its name is double, then its code.
const FIRST_IN_PROGRAMS: [Case; 7] = [
    ("{point = 5, fuel = 0, code = ''}", "missing program 1 0"),
    (
        "{name = 'p', point = 5, fuel = 0, code = ''}",
        "type program 1 0",
    ),
    (
        "{name = 'p', point = 'inbound', fuel = 0}",
        "range program 1 0",
    ),
    (
        "{name = 'p', point = 'inbound', fuel = 1, code = 'x'}",
        "range program 1 0",
    ),
    (
        "{name = 'p', point = 'inbound', fuel = 1, code = '9500000000000000'}, {name = 'p', point = 'inbound', fuel = 1, code = '9'}",
        "range program 2 0",
    ),
    (
        "{name = 'p', point = 'inbound', fuel = 1, code = '9500000000000000'}, {name = 'p', point = 'inbound', fuel = 1, code = 'b700000007000000'}",
        "double program 2 0",
    ),
    (
        "{name = 'p', point = 'inbound', fuel = 1, code = 'b700000000000000b700000007000000'}, 5",
        "openend program 1 1",
    ),
];
