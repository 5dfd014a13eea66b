// Prints the messages of a stream of LDP PDUs, on standard input or in the file that is named, a line for each (docs/LDP_DUMP.md). Where it cannot be read to its
// end, standard error says so after the lines.
#![tactic(auto)]

fn main(rt: HostRuntime) {
    let mut out = rt.stdout();
    let mut err = rt.stderr();
    let usage =
        b"usage: ldp_dump [FILE]   prints the messages of a stream of LDP PDUs, a line each; without FILE it reads standard input\n";
    let Some(mut input) = arguments::input(&rt, usage, &mut out, &mut err) else {
        return;
    };
    let failure = match dump::stream::dump_stream(&mut input, &mut out) {
        Err(why) => Some(why),
        Ok(()) => arguments::later_failure(&mut input),
    };
    arguments::input_fails(&rt, failure, &mut err);
}
