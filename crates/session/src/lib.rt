// Test sessions: lines of text, each of them one call of the library for hosts, with its arguments as words. A line
// is a name and decimal numbers, each behind a space, and gives one line of output: what the call returned, every
// lent word of its answer, the path, the entries of its lists that are not as they were lent, and what the call did
// to the store. Nothing is compared here: what is printed is held to a stored text, which a model of document 01
// made (model/), or the published Rust (oracle/).
//
// A line that is empty, or starts with #, is printed as it is. The calls, with the words that each takes; those that a
// line leaves out at its end are 0:
//
//     trailed TERMS PRICE, elected_by TERMS PRICE, inconsistency TERMS     TERMS: side, stop, watermark, trail
//     preview SIDE STOP TRAIL REFERENCE PRICE, limit COLLAR SIDE STOP      SIDE: 0 buy, 1 sell
//     draw TERMS PRICE ..      two calls a price: the stop and the watermark that `trailed` keeps, and those of a panel
//                              that goes by the preview
//     collar COLLAR, collar_tick COLLAR TICK, child HIGH LOW ID            ID: kind, high, low
//     record PENDING MAYBE PRICE, take MAYBE, reset                        MAYBE: present, price
//     well_formed, quantity, find ID, layout N TICK, clear, cancel ID
//     admit KILL MAYBE ID TERMS QUANTITY HOLDER                            HOLDER: four words
//     update ID CHANGE MAYBE                                               CHANGE: kind, side, price, quantity
//     segment SETTINGS PRINTS, walk SETTINGS MAYBE PRICE ..                SETTINGS: kill, collar, namespace high, low
//     pass SETTINGS PRINTS SCRIPT, run SETTINGS MAYBE SCRIPT               PRINTS: MAYBE, first, last
//     ask SETTINGS PRINTS
//     commit SETTINGS PRINTS N M ENTRY ..      N elected entries of the list that is handed in, and M moved ones
//     step SETTINGS FALLS MAYBE PRICE                                      FALLS: 0 no, any other yes
//     collect SELECTOR, mass_cancel SELECTOR                               SELECTOR: 0 HOLDER; 1 SIDE; 2 lowest, highest
//     ladder PRICE .., turns PRICE ..
//
// What a session lends, which its own lines set:
//
//     words N V         N words, each V
//     set P V           word P becomes V
//     store W ..        these words
//     book TICK NEXT COUNT STOP ..   a store of one record more than the stops, each admitted under its sequence; a STOP
//                       is ID, TERMS, quantity, sequence, HOLDER
//     path W W W W      the print path
//     lists N M K       lists of N elected and M moved, of K entries for collect, mass_cancel and ladder, of K places for turns
//     show K            after a call on the store: 0 nothing; 1 the words that changed; 2 next sequence, pending
//                       count, the stops that changed by rising sequence, and the sequence of each that is gone
#![tactic(auto)]

mod lending;
mod reading;
mod running;

pub use reading::session;
