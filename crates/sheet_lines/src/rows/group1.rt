// Rows 16 to 120: the text of their forms, a line for each, and where each begins.
ghost use Rattle.std.specs.Prelude.{◌+◌, ◌≤◌, ◌<◌, ◌≡◌, [], length, get_or};
ghost use Rattle.text_buffer.specs.Writing.{Put};
ghost use Rattle.text_forms.specs.Forms.{form_of};
ghost use Rattle.text_parts.specs.Parts.{joined, starts as Parts·starts};
ghost use Rattle.sheet_lines.specs.Rows.{rows1};

use text_parts::put_part;

const TEXT: [u8; 5523] = *b"line %n: namespace %u
line %n: kill switch on
line %n: kill switch off
line %n: last trade %o
line %n: admitted %i: %s, stop %n, watermark %n, trail %n, quantity %n, sequence %n
line %n: admitted %i: %s, stop %n, watermark %n, trail %n, quantity %n, sequence %n, holder %h
%n\tadmitted\t\t\t\t%i\t%s\t%n\t%n\t%n\t%n\t%n\t%h
line %n: changed %i: quantity %n, sequence %n (it keeps its turn)
line %n: changed %i: quantity %n, sequence %n (was %n: it loses its turn)
line %n: changed %i: stop %n, sequence %n (it keeps its turn)
line %n: changed %i: stop %n, sequence %n (was %n: it loses its turn)
line %n: changed %i: stop %n, quantity %n, sequence %n (it keeps its turn)
line %n: changed %i: stop %n, quantity %n, sequence %n (was %n: it loses its turn)
line %n: changed %i: %s, stop %n, quantity %n, sequence %n (it keeps its turn)
line %n: changed %i: %s, stop %n, quantity %n, sequence %n (was %n: it loses its turn)
%n\tchanged\t\t\t\t%i\t%s\t%n\t%n\t%n\t%n\t%n\t%h
line %n: cancelled %i: %s, stop %n, watermark %n, trail %n, quantity %n, sequence %n
%n\tcancelled\t\t\t\t%i\t%s\t%n\t%n\t%n\t%n\t%n\t%h
line %n: cancelled stops: %n, of %h
line %n: cleared
line %n: prints %n, the run has %n
line %n: walk over %n prints, from %n to %n
line %n: ends of %n prints, %n and %n
  elected %n, moves %n
  left: %n
  totals: sell %w, buy %w
line %n: totals: sell %w, buy %w
%n\ttotal\t\t\t\t\t%s\t\t\t\t%w
line %n: pending stops: %n
line %n: pending stops: %n, of %h
line %n: turning points: %n, of %n prints
    point %n at %n
line %n: ladder, prices %n, stops %n
    %i: %s, stop %n: %n elect it
      %n
line %n: script entry %n: no print
line %n: script entry %n: prints from %n to %n
line %n: script entry %n: prints from %n to %n, arrived from %n
line %n: pass over %n to %n with %n script entries
    elected %n: %s %i, quantity %n, stop %n, limit %l, sequence %n, child %u, trigger %n
  elected %n, moves %n, script entries used %n
line %n: compare over %n prints: walk elects %n, ends elect %n
    turn %n: both %s %i, quantity %n, stop %n, limit %l, sequence %n
    turn %n: walk %s %i, quantity %n, stop %n, limit %l, sequence %n
    turn %n: ends %s %i, quantity %n, stop %n, limit %l, sequence %n
    missed: %s %i, quantity %n, stop %n, limit %l, sequence %n
  the run never rises: its ends decide it, and walk and ends agree in every turn and leave the same store
  the run never falls: its ends decide it, and walk and ends agree in every turn and leave the same store
  the run turns: the ends miss %n of %n elections
  the stores left are equal in every word
  the stores left differ
line %n: not done: records and tick come before the first stop
line %n: not done: a script has at most %n entries
done
stopped at line %n
the sheet is longer than %n bytes
the argument is table or picture, or there is none
line\tevent\tprint\tprice\tturn\tidentity\tside\tstop\twatermark\ttrail\tquantity\tsequence\tholder\tlimit\tchild\tstop before\twatermark before
line %n: refused %n
line %n: refused 1: the store is not well formed
line %n: refused 2: a store has 1 to 545 records
line %n: refused 3: the kill switch is on, and no stop is admitted
line %n: refused 4: the quantity is zero
line %n: refused 5: the trail is zero
line %n: refused 6: a sell's stop is above its watermark, or a buy's below it
line %n: refused 7: the last trade would elect the stop at once
line %n: refused 8: a stop with this identity is pending
line %n: refused 9: the trail is not a multiple of the tick
line %n: refused 10: the store is full
line %n: refused 11: no sequence number is left
line %n: refused 12: no stop with this identity is pending
line %n: refused 13: the stop has this price already
line %n: refused 14: a list is too short
line %n: refused 15: the script is not well formed
line %n: refused 16: a run has 1 to 4096 prints
line %n: refused 17: the collar is zero
line %n: refused 18: the collar is not a multiple of the tick
line %n: refused 19: a ladder has 1 to 64 prices
line %n, column %n: a word is missing
line %n, column %n: %h is not a number
line %n, column %n: %h is too large, 18446744073709551615 is the most
line %n, column %n: %h is not a UUID
line %n, column %n: %h is not a ULID
line %n, column %n: %h is neither on nor off
line %n, column %n: %h is neither sell nor buy
line %n, column %n: %h.. is longer than 32 bytes
line %n, column %n: %h is a word too many
line %n, column %n: %h is no command
<svg xmlns=\"http://www.w3.org/2000/svg\" width=\"1200\" height=\"%n\" viewBox=\"0 0 12000 %n0\" font-family=\"sans-serif\" font-size=\"110\">
<style>path,polyline{fill:none;stroke-width:12}.grid{stroke:#ddd}.price{stroke:#333;stroke-width:16}path.sell{stroke:#c0392b}path.buy{stroke:#2471a3}circle{fill:#fff;stroke-width:14}circle.sell{stroke:#c0392b}circle.buy{stroke:#2471a3}text.sell{fill:#c0392b}text.buy{fill:#2471a3}.turn{text-anchor:middle;font-size:80px}.end{text-anchor:end}.under{text-anchor:middle}.long{font-size:60px}</style>
<rect width=\"12000\" height=\"%n0\" fill=\"#fff\"/>
<g transform=\"translate(0 %n)\"><text x=\"1600\" y=\"220\" font-size=\"150\">line %n: walk over %n prints, %n stops</text>
<path class=\"grid\" d=\"M1600 %nH10600\"/><text x=\"10720\" y=\"%n\">%n</text>
<path class=\"grid\" d=\"M%n 400V5200\"/><text class=\"under\" x=\"%n\" y=\"5400\">%n</text>
<polyline class=\"price\" points=\"
\"/>
<text class=\"%s end\" x=\"1380\" y=\"%n\">%i</text>
<text class=\"%s end long\" x=\"1380\" y=\"%n\">%i</text>
<path class=\"%s\" d=\"M1400 %nL1590 %n\" stroke-dasharray=\"20\"/>
</g>
</svg>
<!-- line %n: refused %n -->
<!-- line %n, column %n: not read -->
<!-- done -->
<!-- stopped at line %n -->
";

const STARTS: [usize; 106] = [
    0, 22, 46, 71, 94, 178, 273, 312, 378, 452, 514, 584, 659, 742, 821, 908, 946, 1031, 1071,
    1107, 1124, 1159, 1203, 1241, 1264, 1275, 1301, 1334, 1356, 1383, 1417, 1459, 1478, 1515, 1548,
    1557, 1592, 1639, 1703, 1754, 1843, 1890, 1953, 2022, 2091, 2160, 2223, 2329, 2435, 2485, 2527,
    2552, 2615, 2666, 2671, 2690, 2724, 2775, 2904, 2924, 2973, 3022, 3089, 3130, 3168, 3246, 3310,
    3367, 3427, 3466, 3514, 3573, 3626, 3667, 3718, 3766, 3806, 3868, 3917, 3955, 3994, 4064, 4101,
    4138, 4183, 4230, 4279, 4321, 4358, 4489, 4886, 4933, 5049, 5121, 5204, 5237, 5241, 5288, 5340,
    5402, 5407, 5414, 5443, 5481, 5495, 5523,
];

fn text() -> [u8; 5523]
    ensures { result ≡ joined rows1 }
{
    TEXT
}

fn starts() -> [usize; 106]
    ensures { result ≡ Parts·starts 0 rows1 }
{
    STARTS
}

// Puts what the k-th of these rows makes of values from a place on.
pub fn put_group(buf: &mut [u8], at: usize, k: usize, values: &[u64]) -> usize
    requires at_in_bounds { at ≤ length buf.old }
    requires k_bound { k < 105 }
    ensures put { Put buf.old at (form_of (get_or rows1 k []) values.now) buf.new result }
    ensures upper_bound { result ≤ at + 1048576 }
{
    let text = text();
    let starts = starts();
    put_part(buf, at, &text, &starts, k, values)
}
