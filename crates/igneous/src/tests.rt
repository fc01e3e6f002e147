mod parts;
mod posix_store;
mod std_sink;
mod system_clock;
mod temp_name;
