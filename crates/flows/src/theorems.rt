// The theorems on which every list of corners rests. Each is the contract of a function, so that the check asks for its proof.
ghost use Rattle.flows.specs.Certificate.{CertificateStands};
ghost use Rattle.flows.specs.Cuts.{UnservedStands};
ghost use Rattle.flows.specs.Facts.{ReachStands, CornersStand, ListExists, ListUnique, EmptyIsNoFlow, NeighboursTurn};
ghost use Rattle.flows.specs.Layers.{ExchangeStands, ExchangeNoFlow, FloorStands, FloorNoFlow};
ghost use Rattle.flows.specs.Prices.{BestOf, SharedOf, LightestByPrices, FitWhereAsLight, MinimumByPrices, FitAtPoint, OpeningByPrices, ClosingByPrices, SearchingByPrices, WeighingByPrices, WeighingFirstByPrices};

use worths::kind::Weighed;

/// Prices that fit a flow show that no flow is worth less, and they fit every flow that is worth as much: for every kind of worth.
pub fn prices_stand<K: Weighed>()
    ensures best { BestOf K.Weighed.kind }
    ensures shared { SharedOf K.Weighed.kind }
{}

/// So they show lightest points and the minima by which corners are found.
pub fn minima_stand()
    ensures lightest { LightestByPrices }
    ensures as_light { FitWhereAsLight }
    ensures minimum { MinimumByPrices }
    ensures at_point { FitAtPoint }
    ensures opening { OpeningByPrices }
    ensures closing { ClosingByPrices }
    ensures searching { SearchingByPrices }
    ensures weighing { WeighingByPrices }
    ensures weighing_first { WeighingFirstByPrices }
{}

/// A set of nodes that offers more than can leave it, or less than has to, admits no flow.
pub fn sets_stand()
    ensures { UnservedStands }
{}

/// Every network has one full list, within the reach, and it is empty exactly where there is no flow; and what is proved of corners holds of it.
pub fn lists_stand()
    ensures reach { ReachStands }
    ensures corners { CornersStand }
    ensures exists { ListExists }
    ensures unique { ListUnique }
    ensures empty { EmptyIsNoFlow }
    ensures neighbours { NeighboursTurn }
{}

/// Exchange turns the full list round with its costs exchanged, Floor keeps it, and neither makes or takes away the last flow.
pub fn layers_stand()
    ensures exchange { ExchangeStands }
    ensures exchange_none { ExchangeNoFlow }
    ensures floor { FloorStands }
    ensures floor_none { FloorNoFlow }
{}

/// What passes the test of certificates is the full list.
pub fn certificates_stand()
    ensures { CertificateStands }
{}
