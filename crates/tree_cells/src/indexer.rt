// indexer.rs: a cell with its middles at hand, by which a point finds its quadrant and goes down to its quarter.
ghost use Rattle.std.specs.Prelude.{◌≡◌};
ghost use Rattle.rules.specs.Cell.{quadrant};
ghost use Rattle.tree_cells.specs.Indexer.{indexer, cell_of, Descends};

use crate::extent::{middle, quarter};
use rules::Extent;

#[derive(Clone, Copy)]
pub struct Indexer {
    pub cell: Extent,
    pub xm: f64,
    pub ym: f64,
}

// A quadrant's number and the indexer of that quarter.
#[derive(Clone, Copy)]
pub struct Descent {
    pub quadrant: usize,
    pub indexer: Indexer,
}

impl Indexer {
    pub fn with_extent(c: Extent) -> Self
        ensures { result ≡ indexer c }
    {
        Indexer {
            cell: c,
            xm: middle(c.x0, c.x1),
            ym: middle(c.y0, c.y1),
        }
    }

    pub fn cell(self) -> Extent
        ensures { result ≡ cell_of self }
    {
        self.cell
    }

    // 2 if y >= ym, plus 1 if x >= xm.
    #[tactic(auto, unfolding(rules::specs::Cell::quadrant))]
    pub fn get(self, x: f64, y: f64) -> usize
        requires { self ≡ indexer (cell_of self) }
        ensures { result ≡ quadrant (cell_of self) x y }
    {
        2 * usize::from(y >= self.ym) + usize::from(x >= self.xm)
    }

    #[tactic(auto, using(crate::proofs::Quadrant::quadrant_lt))]
    pub fn get_and_descend(self, x: f64, y: f64) -> Descent
        requires { self ≡ indexer (cell_of self) }
        ensures { Descends (cell_of self) x y result }
    {
        let quadrant = self.get(x, y);
        Descent {
            quadrant,
            indexer: Indexer::with_extent(quarter(quadrant, self.cell)),
        }
    }
}
