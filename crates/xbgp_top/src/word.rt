//! The words in which faults are printed.
ghost use Rattle.std.specs.Prelude.{◌≡◌, ◌≤◌, length};
ghost use Rattle.xbgp_top.specs.Words.{file_word, kind_word, load_word, part_word};

use crate::File;
use bpf_insn::LoadKind;
use xb_domain::{BadKind, Part};
use xbgp_manifest::load_kind;

/// The word for what is wrong with a configuration or a manifest.
pub(crate) fn kind_word(kind: BadKind) -> &'static [u8]
    ensures word { result.now ≡ kind_word kind }
    ensures short { length result.now ≤ 8 }
{
    match kind {
        BadKind::Text => b"text",
        BadKind::Shape => b"type",
        BadKind::Key => b"key",
        BadKind::Missing => b"missing",
        BadKind::Range => b"range",
        BadKind::Count => b"count",
        BadKind::Double => b"double",
        BadKind::Room => b"room",
        BadKind::Length => b"length",
        BadKind::TooLong => b"toolong",
        BadKind::Opcode => b"opcode",
        BadKind::Register => b"register",
        BadKind::Reserved => b"reserved",
        BadKind::WidePair => b"widepair",
        BadKind::Jump => b"jump",
        BadKind::WriteR10 => b"writer10",
        BadKind::Helper => b"helper",
        BadKind::OpenEnd => b"openend",
    }
}

/// The word for the part that has a fault.
pub(crate) fn part_word(part: Part) -> &'static [u8]
    ensures word { result.now ≡ part_word part }
    ensures short { length result.now ≤ 7 }
{
    match part {
        Part::Top => b"top",
        Part::Speaker => b"speaker",
        Part::Network => b"network",
        Part::Peer => b"peer",
        Part::Cost => b"cost",
        Part::Map => b"map",
        Part::Program => b"program",
    }
}

/// The word for why bytecode is refused.
pub(crate) fn load_word(kind: LoadKind) -> &'static [u8]
    ensures word { result.now ≡ load_word kind }
    ensures short { length result.now ≤ 8 }
{
    kind_word(load_kind(kind))
}

/// The word for an input.
pub(crate) fn file_word(file: File) -> &'static [u8]
    ensures word { result.now ≡ file_word file }
    ensures short { length result.now ≤ 8 }
{
    match file {
        File::Input => b"input",
        File::Config => b"config",
        File::Manifest => b"manifest",
        File::Log => b"log",
    }
}
