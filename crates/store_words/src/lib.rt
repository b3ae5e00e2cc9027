// The words of a store, where no link changes: laid out anew, a record read, an identity found and the quantities
// summed.
//
//     header: n count next tick | heads: sell stop, sell watermark, buy stop, buy watermark, free
//     record: kind high low side stop watermark trail quantity seq | next by stop, next by watermark

#![tactic(auto)]
