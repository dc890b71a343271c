//! How a caller's window for free rows goes round the map.
use kw_index::window::Window;

// Where the next search begins after one that took so many rows, this one last.
fn start_behind(window: &mut Window, last: u32, count: u32) -> u32 {
    window.took(last, count);
    window.start()
}

// A round of 64 rows that took one in two is followed by one that is no longer; one that took
// one in eight, by one that is twice as long.
#[test]
fn a_window_grows_where_a_round_found_few_rows(rt: HostRuntime) {
    let mut window = Window::new(16_384, 100);
    let round = [
        window.start(),
        start_behind(&mut window, 120, 2),
        start_behind(&mut window, 163, 30),
    ];
    window.took(163, 8);
    let longer = [
        start_behind(&mut window, 164, 64),
        start_behind(&mut window, 227, 1),
    ];
    assert_eq!(rt; (round, longer), ([100, 121, 100], [165, 100]));
}

// Behind the last row of the map comes row 0, and no window has more rows than the map.
#[test]
fn a_window_goes_past_the_end_of_the_map(rt: HostRuntime) {
    let mut window = Window::new(96, 64);
    let mut small = Window::new(8, 7);
    let starts = [
        start_behind(&mut window, 95, 20),
        start_behind(&mut window, 30, 20),
        start_behind(&mut window, 31, 1),
        start_behind(&mut small, 6, 1),
        start_behind(&mut small, 3, 1),
    ];
    assert_eq!(rt; starts, [0, 31, 64, 7, 4]);
}
