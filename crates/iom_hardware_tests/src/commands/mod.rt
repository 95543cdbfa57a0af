// The command queue: bytes of commands against the standard's figures (section 3.1), the ring in a memory and a register file, and slots.
mod bytes;
mod refusals;
mod ring;
mod slots;
