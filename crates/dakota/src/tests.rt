//! What the program does with its words, over files of its own and a standard output in memory.
mod commands;
mod outputs;
