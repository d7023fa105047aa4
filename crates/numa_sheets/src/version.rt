//! The version of the program.

/// The version, as in the file VERSION, and the identity of the logic with which it is proved: kits
/// of one logic prove the same. (In a program that is compiled without a proof
/// tools/building/unproved.bash puts that in place of it, in as many bytes.)
pub const VERSION: &str = "0.10.0 (proved with logic dac8208d650f15bf)";
