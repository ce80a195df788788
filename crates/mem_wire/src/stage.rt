// Where a play stands.
use crate::late::Late;
use crate::refusals::Refusals;
use crate::track::Track;
use crate::turns::Turns;
use crate::waiting::Waiting;
use mx_base::LinkId;

/// Where a play stands. Links are numbered from 0 as they come.
#[derive(Drop)]
pub(crate) struct Stage {
    /// The lines before this one are released.
    pub cut: usize,
    /// The lines of the last wake begin here.
    pub last: usize,
    /// The clients that came to the two ports, and how many of them were accepted.
    pub traffic: Vec<Waiting>,
    pub admin: Vec<Waiting>,
    pub traffic_accepted: usize,
    pub admin_accepted: usize,
    /// The track of each name, by its place.
    pub tracks: Vec<Track>,
    /// The place of each link's track.
    pub places: Vec<usize>,
    /// The links to servers.
    pub opened: Vec<LinkId>,
    /// How many opens there were, also those that failed, and which fail.
    pub opens: u64,
    pub refusals: Refusals,
    pub late: Late,
    /// The links that the last wake may still name.
    pub turns: Turns,
}
