mod pieces;
mod read_back;
mod session;
mod written;
