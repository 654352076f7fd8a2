//! The program with a writer of the test's own. What it answers to scripts, and with reads, writes and memory that fail, the
//! gate tries on the program as it is built.

mod flushes;
