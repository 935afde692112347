//! What holds of the places of every record, and of the type indices that are written there.
//!
//! Each function here does nothing: its contract is the law.

ghost use Rattle.cv_leaves.specs.Laws.{OnePlaces, PlacesApart, FillKeeps, BlankKeeps, BlankStays, WrittenIsRead, PlacesMet, FilledIsRead, FillKeepsBlank, OwnFill, FillKeepsFrame, BlankKeepsFrame, FillKeepsBytes, BlankKeepsBytes, MethodsFill, MembersDiffer, MembersFill, MembersName};

/// A record has one list of places.
pub fn one_list_of_places()
    ensures { OnePlaces }
{}

/// The places of a record are those that a walk over its parts meets.
pub fn places_are_met()
    ensures { PlacesMet }
{}

/// The places of a record rise, and they are at least four bytes apart. The four bytes at each of
/// them lie within the body.
pub fn places_are_apart()
    ensures { PlacesApart }
{}

/// A record keeps its places, whatever numbers are written there.
pub fn filling_keeps_the_places()
    ensures { FillKeeps }
{}

/// A record keeps its places when zeros are written there.
pub fn blanking_keeps_the_places()
    ensures { BlankKeeps }
{}

/// Writing zeros at the places of a record a second time changes nothing.
pub fn blanking_again_changes_nothing()
    ensures { BlankStays }
{}

/// A type index that is written at a place is read back there.
pub fn what_is_written_is_read()
    ensures { WrittenIsRead }
{}

/// When type indices are written at all places of a record, they are its references.
pub fn filled_numbers_are_read()
    ensures { FilledIsRead }
{}

/// A record keeps its blank, whatever numbers are written at its places. The *blank* of a record is
/// the record with zeros at its places.
pub fn filling_keeps_the_blank()
    ensures { FillKeepsBlank }
{}

/// When the references of a record of bytes are written into its blank, the blank is the record
/// again.
pub fn own_references_fill_the_blank()
    ensures { OwnFill }
{}

/// A record stays whole, whatever numbers are written at its places: its length field still says
/// how long it is.
pub fn filling_keeps_the_frame()
    ensures { FillKeepsFrame }
{}

/// The blank of a record is a whole record: its length field still says how long it is.
pub fn blanking_keeps_the_frame()
    ensures { BlankKeepsFrame }
{}

/// A record of bytes stays one, whatever numbers are written at its places.
pub fn filling_keeps_bytes()
    ensures { FillKeepsBytes }
{}

/// The blank of a record is made of bytes.
pub fn blanking_keeps_bytes()
    ensures { BlankKeepsBytes }
{}

/// The entries of a method list lie one after the other and fill its body.
pub fn methods_fill_the_body()
    ensures { MethodsFill }
{}

/// The members of a field list, each with its padding, lie one after the other and fill its body.
pub fn members_fill_the_body()
    ensures { MembersFill }
{}

/// The members of a field list and those of its blank differ in nothing but their type indices.
pub fn blanking_keeps_the_members()
    ensures { MembersDiffer }
{}

/// The references of a field list are the type indices of its members, in order.
pub fn members_name_the_references()
    ensures { MembersName }
{}
