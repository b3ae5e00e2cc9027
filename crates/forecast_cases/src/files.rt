// The input as a file in the folder that the program runs in, so that a case goes through the same reading as
// standard input does.
use forecast_lines::forecast_of;
use std::fs;
use std::fs::{File, OpenOptions};
use std::os::fd::AsRawFd;

// Makes the file of these bytes.
pub fn write(rt: &HostRuntime, bytes: &[u8]) -> std::io::Result<()> {
    fs::write(rt, "input", bytes)
}

// Makes the file so long, up to a million bytes.
pub fn set_length(rt: &HostRuntime, n: u64) -> std::io::Result<()> {
    if n > 1000000 {
        return Ok(());
    }
    let file = OpenOptions::new().write(true).open(rt, "input")?;
    file.set_len(n)
}

// Writes the forecast of the file.
pub fn forecast(rt: &HostRuntime) -> std::io::Result<()> {
    let file = File::open(rt, "input")?;
    forecast_of(file.as_raw_fd());
    Ok(())
}
