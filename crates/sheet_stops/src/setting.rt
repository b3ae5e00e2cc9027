// The store's size and tick, and the settings.
use sheet_desk::{COLLAR, IN_USE, KILL, LINE, NAMESPACE, RECORDS, TICK, TRADE, accepted, tell};
use sheet_lines::names;
use word_groups::{set, word};
use yubtomiq::{
    yubtomiq_check_collar, yubtomiq_check_tick_size, yubtomiq_clear, yubtomiq_layout_store,
};

// Whether a collar goes with a tick.
fn check_collar(collar: u64, tick: u64) -> Result<(), u64> {
    accepted(yubtomiq_check_collar(collar))?;
    accepted(yubtomiq_check_tick_size(collar, tick))
}

fn layout_of(s: &mut [u64], n: u64, tick: u64) -> Result<(), u64> {
    accepted(yubtomiq_layout_store(s, n, tick))
}

// Lays the store out, unless the collar, if there is one, is against it.
fn lay_out(s: &mut [u64], collar: u64, n: u64, tick: u64) -> Result<(), u64> {
    if collar != 0 {
        check_collar(collar, tick)?;
    }
    layout_of(s, n, tick)
}

// A store of so many records with this tick, before the first stop.
pub fn store(
    s: &mut [u64],
    desk: &mut [u64],
    out: &mut [u8],
    n: u64,
    tick: u64,
) -> Result<(), u64> {
    let line = word(&desk[..], LINE);
    if word(&desk[..], IN_USE) != 0 {
        tell(out, desk, names::STORE_IN_USE, &[line]);
        return Ok(());
    }
    lay_out(s, word(&desk[..], COLLAR), n, tick)?;
    set(desk, RECORDS, n);
    set(desk, TICK, tick);
    tell(out, desk, names::STORE, &[line, n, tick]);
    Ok(())
}

pub fn collar(desk: &mut [u64], out: &mut [u8], present: u64, collar: u64) -> Result<(), u64> {
    let line = word(&desk[..], LINE);
    if present != 0 {
        check_collar(collar, word(&desk[..], TICK))?;
    }
    set(desk, COLLAR, collar);
    tell(out, desk, names::COLLAR, &[line, present, collar]);
    Ok(())
}

pub fn namespace(desk: &mut [u64], out: &mut [u8], high: u64, low: u64) {
    let line = word(&desk[..], LINE);
    set(desk, NAMESPACE, high);
    set(desk, NAMESPACE + 1, low);
    tell(out, desk, names::NAMESPACE, &[line, high, low]);
}

pub fn kill(desk: &mut [u64], out: &mut [u8], on: u64) {
    let line = word(&desk[..], LINE);
    set(desk, KILL, on);
    let row = if on != 0 {
        names::KILL_ON
    } else {
        names::KILL_OFF
    };
    tell(out, desk, row, &[line]);
}

// The last trade, which a stop must not be elected by when it comes, and where a run comes from.
pub fn last(desk: &mut [u64], out: &mut [u8], present: u64, price: u64) {
    let line = word(&desk[..], LINE);
    set(desk, TRADE, present);
    set(desk, TRADE + 1, price);
    tell(out, desk, names::LAST, &[line, present, price]);
}

fn clear_of(s: &mut [u64]) -> Result<(), u64> {
    let mut path = [0u64; 4];
    accepted(yubtomiq_clear(s, &mut path))
}

pub fn clear(s: &mut [u64], desk: &mut [u64], out: &mut [u8]) -> Result<(), u64> {
    let line = word(&desk[..], LINE);
    clear_of(s)?;
    tell(out, desk, names::CLEARED, &[line]);
    Ok(())
}
