// Corners of any set of points in the plane: the mathematics below every list of corners, with no network in sight.
#![tactic(auto)]

ghost use Rattle.plane.specs.Facts.{FactsOf};
ghost use Rattle.plane.specs.Points.{Point};

/// Anything that has points, such as a network by its flows.
pub trait Plane {
    ghost points: { Point → Type 0 };
}

/// The theorems on corners hold of the points of every two planes.
pub fn corners_stand<A: Plane, B: Plane>()
    ensures { FactsOf A.Plane.points B.Plane.points }
{}
