// In each part of the problem the cheaper of two ways to give classes.
use crate::lists::{at, put};
use crate::net::Net;
use crate::searcher::Searcher;
use crate::state::cost_of;
use agg_base::NoMemory;
use std::alloc::Global;

// What is known of a part: by how much the given classes cost more than those of the search, and whether the latter leave a poor region.
#[derive(Clone, Copy)]
struct Score {
    more: i128,
    is_poor: bool,
}

// The score of a part that nothing is known of.
const NOTHING: Score = Score {
    more: 0,
    is_poor: false,
};

impl Searcher {
    // Takes over the given classes in each part where they cost less or the search has left a poor region. Parts go by their least areas.
    pub(crate) fn choose(
        &mut self,
        alloc: Global,
        net: &Net,
        parts: &[u32],
        given: &[u8],
    ) -> Result<(), NoMemory> {
        let mut scores = vec![in alloc; NOTHING; parts.len()]?;
        for area in 0..net.areas() {
            let part = at(parts, area as usize, 0) as usize;
            let score = self.score_with(net, given, area, at(&scores, part, NOTHING));
            put(&mut scores, part, score);
        }
        self.take_over(net, parts, given, &scores);
        self.state.count(net);
        Ok(())
    }

    // A score with one more area.
    fn score_with(&mut self, net: &Net, given: &[u8], area: u32, score: Score) -> Score {
        let cost = cost_of(net, given, area);
        let here = cost_of(net, self.state.classes(), area);
        let is_rich = self.is_rich(net, area);
        Score {
            more: score.more.wrapping_add(cost.wrapping_sub(here)),
            is_poor: score.is_poor || !is_rich,
        }
    }

    // Takes over the given classes where the score says so.
    fn take_over(&mut self, net: &Net, parts: &[u32], given: &[u8], scores: &[Score]) {
        for area in 0..net.areas() {
            let part = at(parts, area as usize, 0) as usize;
            let score = at(scores, part, NOTHING);
            if score.is_poor || score.more < 0 {
                self.state.paint(area, at(given, area as usize, 0));
            }
        }
    }
}
