mod catalogues;
mod families;
mod headers;
mod pages;
mod signatures;
mod transfers;
mod values;
