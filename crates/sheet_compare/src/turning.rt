// The turning points of a run.
use book::MOST_PRICES;
use sheet_desk::{LINE, accepted, filled, tell};
use sheet_lines::names;
use word_groups::word;
use yubtomiq::yubtomiq_turning_points;

fn turns_of<'a>(run: &[u64], list: &'a mut [u64]) -> Result<&'a [u64], u64> {
    let mut answer = [0u64; 1];
    accepted(yubtomiq_turning_points(run, list, &mut answer))?;
    Ok(filled(list, answer[0]))
}

// The run stays as it is.
pub fn turns(desk: &mut [u64], out: &mut [u8], run: &[u64]) -> Result<(), u64> {
    let line = word(&desk[..], LINE);
    let mut list = [0u64; MOST_PRICES];
    let points = turns_of(run, &mut list)?;
    let many = points.len() as u64;
    tell(out, desk, names::TURNS, &[line, many, run.len() as u64]);
    for (number, &price) in (1..=many).zip(points) {
        tell(out, desk, names::TURN, &[number, price]);
    }
    Ok(())
}
