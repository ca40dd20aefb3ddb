mod code;
mod maps;
mod memory;
mod runs;
