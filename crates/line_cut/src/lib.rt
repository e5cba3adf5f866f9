// Lines out of blocks of characters, in constant memory: a line may be of any length, and may begin in one block and
// end in another. Nothing here knows what a line is answered, nor how long one is.
#![tactic(auto)]

pub mod keep;
pub mod line_feed;
