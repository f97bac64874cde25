// What a segment's workers leave, in the words of histories. The functions do nothing: their contracts are the laws.
ghost use Rattle.trace_workers.specs.Laws.{ColumnsAreWorked, PlacesAreOfRecords, RisingSharesRise, SharesAreAll, SharesAreRecorded};

/// Workers to whom a segment's record lines were dealt, and who recorded them, have a page of each of their lines, and
/// their passes have grown by exactly their shares of the receipts, in line order.
pub fn shares_are_recorded()
    ensures { SharesAreRecorded }
{}

/// The places that are dealt are those of the segment's record lines, in line order.
pub fn places_are_of_records()
    ensures { PlacesAreOfRecords }
{}

/// Where the pages of each worker's share never fall and are not below a floor, the receipts keep to what is legal for so
/// many workers.
pub fn rising_shares_rise()
    ensures { RisingSharesRise }
{}

/// All shares of a router together have the entries of the router's receipts, and no others.
pub fn shares_are_all()
    ensures { SharesAreAll }
{}

/// The passes of a router in the order of the workers have the shares in that order, as a yard has them.
pub fn columns_are_worked()
    ensures { ColumnsAreWorked }
{}
