// The end of a program, and its helpers.
ghost use Rattle.std.specs.Prelude.{◌≡◌, ℕ, Bool, IsTrue};
ghost use Rattle.bpf_machine.specs.Running.{Helps};

use bpf_mem::Memory;

/// Why a program failed. `run` itself returns the first three only.
#[derive(Clone, Copy, Debug, PartialEq, Eq)]
pub enum Cause {
    /// A load or a store was outside memory, or a store was into the window.
    Memory,
    /// All fuel was used up before the program ended.
    Fuel,
    /// A helper was called with arguments that it doesn't take.
    Misuse,
    /// The point that ran the program doesn't know its result.
    BadReturn,
    /// The program left an output that isn't valid.
    BadOutput,
}

/// How a program ends.
#[derive(Clone, Copy, Debug, PartialEq, Eq)]
pub enum End {
    /// By EXIT, with r0.
    Exit(u64),
    /// By a helper that passes on to the next program.
    Next,
    Failed(Cause),
}

/// What a helper returns.
#[derive(Clone, Copy, Debug, PartialEq, Eq)]
pub enum Called {
    /// The program goes on with this value in r0.
    Value(u64),
    /// The program ends, and the next one has its turn.
    Next,
    /// The program ends with `Cause::Misuse`.
    Misuse,
}

/// A world: what programs may call, and what calls read and write.
pub trait Helpers {
    ghost State: { Type 0 };

    /// Its state as plain data, without the memory that holds it.
    ghost state: { Self → State };

    /// The numbers that are allowed.
    ghost allowed: { State → ℕ → Bool };

    /// The result of a call, and the memory and the state that it leaves.
    ghost helps: { Helps State };

    ghost Names: { Type 0 };

    /// The references that it writes through, by their ghost names. A caller that lends a `&mut` in a world learns from
    /// `names` that the world still holds that reference, and so what was written to it. A world without such
    /// references has `Unit {0}` and `λ _. tt`.
    ghost names: { Self → Names };

    /// Calls the helper `number` with r1 to r5.
    fn call(&mut self, number: u32, args: [u64; 5], memory: &mut Memory<'_>) -> Called
        requires { IsTrue (allowed (state self.old) number) }
        ensures called { result ≡ (helps number args memory.old (state self.old)).called }
        ensures memory { memory.new ≡ (helps number args memory.old (state self.old)).memory }
        ensures state { state self.new ≡ (helps number args memory.old (state self.old)).world }
        ensures allowed { (n : ℕ) → allowed (state self.new) n ≡ allowed (state self.old) n }
        ensures names { names self.new ≡ names self.old }
        ensures window { memory.new.window ≡ memory.old.window };
}
