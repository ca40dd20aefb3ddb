/// What is wrong with a configuration or a manifest. From `Length` on, it is a fault of a program's code.
#[derive(Clone, Copy, Debug, PartialEq, Eq)]
pub enum BadKind {
    /// The text is not a TOML document.
    Text,
    /// A value of another TOML type.
    Shape,
    /// A key that is not listed.
    Key,
    /// A key that is missing.
    Missing,
    /// A value of the right type that is not allowed.
    Range,
    /// Too many entries.
    Count,
    /// What an earlier entry has already.
    Double,
    /// Maps that take too much room together.
    Room,
    /// Code that is empty or not of whole slots.
    Length,
    /// Code of too many slots.
    TooLong,
    /// An operation code that there is not.
    Opcode,
    /// A register that there is not.
    Register,
    /// A field that must be 0 and is not.
    Reserved,
    /// A 64-bit load whose second slot is missing or not of its form.
    WidePair,
    /// A jump to no instruction.
    Jump,
    /// A write to the register r10.
    WriteR10,
    /// A call of a helper that is not allowed.
    Helper,
    /// Code whose end can be passed.
    OpenEnd,
}

/// The part of a configuration or a manifest that has a fault.
#[derive(Clone, Copy, Debug, PartialEq, Eq)]
pub enum Part {
    Top,
    Speaker,
    Network,
    Peer,
    Cost,
    Map,
    Program,
}
