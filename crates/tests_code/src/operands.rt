//! Elements, worked by hand.
use tce_exec::{
    ElementPlace, cleared_slots_are_cleared, coordinates_of, place_of_element,
    places_have_their_words, puts_change_one_place, slots_lead_to_places,
    tile_puts_change_one_place, touched_tiles_show_elements, touches_keep_states,
};
use tce_space::{MAX_INDEXES, Numbers, Shape};

// Numbers of which that of index 2 is 1, that of index 3 is 4, and those of the others are 9.
fn numbers() -> Numbers {
    let mut all = [9; MAX_INDEXES];
    all[2] = 1;
    all[3] = 4;
    all
}

#[test]
fn laws_of_operands() {
    slots_lead_to_places();
    places_have_their_words();
    touched_tiles_show_elements();
    puts_change_one_place();
    cleared_slots_are_cleared();
    tile_puts_change_one_place();
    touches_keep_states();
}

#[test]
fn repeated_indexes_have_one_number(rt: HostRuntime) {
    let coordinates = coordinates_of(&[3, 2, 3], &numbers());
    assert!(rt; coordinates.as_slice() == [4, 1, 4].as_slice());
}

// An array of one element has one tile of one word.
#[test]
fn single_elements_stand_first(rt: HostRuntime) {
    let at = place_of_element(&Shape::default(), &[]);
    assert!(rt; at.tile == 0);
    assert!(rt; at.place == 0);
}
